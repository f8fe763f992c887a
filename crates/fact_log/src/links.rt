// The links of a cell in each of the five indices. An index is a number (view.rt says why), and so each match is on it.
ghost use Rattle.std.specs.Prelude.{◌≡◌};
ghost use Rattle.fact_log.specs.Links.{link_at, with_link};

use cells::{Cell, Link};

#[tactic(auto, unfolding(crate::specs::Links::link_at))]
pub(crate) fn link(cell: &Cell, slot: usize) -> Link
    ensures { result ≡ link_at cell.now slot }
{
    match slot {
        0 => cell.fact,
        1 => cell.first,
        2 => cell.second,
        3 => cell.third,
        _ => cell.whole,
    }
}

#[tactic(auto, unfolding(crate::specs::Links::with_link))]
pub(crate) fn set_link(cell: &mut Cell, slot: usize, link: Link)
    ensures { cell.new ≡ with_link cell.old slot link }
{
    match slot {
        0 => cell.fact = link,
        1 => cell.first = link,
        2 => cell.second = link,
        3 => cell.third = link,
        _ => cell.whole = link,
    }
}
