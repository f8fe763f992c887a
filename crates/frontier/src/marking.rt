// Marks on the tokens that may follow.
ghost use Rattle.std.specs.Prelude.{◌≤◌, length};
ghost use Rattle.faults.specs.Sound.{Sound};
ghost use Rattle.chart.specs.Chart.{Frontier};
ghost use Rattle.closing.specs.Charts.{Stands};
ghost use Rattle.frontier.specs.Marks.{Marks, RowOffers, DueOffers};
ghost use Rattle.frontier.specs.Offers.{Only};

use crate::offers::offered;
use cells::Row;
use closing::{Chart, item_in};
use fact_log::things::Thing;
use grammar::Source;

// The token that the item in a row offers, if it holds an item that offers one.
fn offered_in<S: Source>(source: &S, tokens: &[u32], row: Row) -> Option<u32>
    requires sound { Sound (S.meaning source.now) }
    requires tokens { length tokens.now ≤ 200 }
    ensures { Only (RowOffers (S.meaning source.now) tokens.now row) result }
{
    offered(source, tokens, item_in(row)?)
}

// Marks it.
fn mark_row<S: Source>(source: &S, tokens: &[u32], row: Row, marks: &mut [bool])
    requires sound { Sound (S.meaning source.now) }
    requires tokens { length tokens.now ≤ 200 }
    ensures { Marks (RowOffers (S.meaning source.now) tokens.now row) marks.old marks.new }
{
    // Nothing to mark; there is no value to pass on.
    let Some(token) = offered_in(source, tokens, row) else {
        return;
    };
    let at = token as usize;
    // By index: of what `get_mut` lends a proof knows no more than the length of the slice.
    if at < marks.len() {
        marks[at] = true;
    }
}

// Marks the tokens that the items offer that move on, if they do, when there are `due` tokens.
fn mark_due<S: Source>(chart: &Chart<'_, S>, due: u32, marks: &mut [bool])
    requires sound { Sound (S.meaning chart.now.source.now) }
    requires stands { Stands (S.meaning chart.now.source.now) chart.now }
    ensures { Marks (DueOffers (S.meaning chart.now.source.now) chart.now.tokens.now chart.now.cells.now chart.now.room.base chart.now.end due 0) marks.old marks.new }
{
    let Chart {
        source,
        tokens,
        cells,
        room,
        end,
    } = *chart;
    let mut cell = fact_log::latest(cells, room.base, end, Thing::Due(due), end);
    while let Some(p) = cell {
        mark_row(source, tokens, cells[p].row, marks);
        cell = fact_log::latest(cells, room.base, end, Thing::Due(due), p);
    }
}

// Marks the tokens that may follow: those that an item of the whole chart stands before at the end of the tokens.
pub fn frontier<S: Source>(chart: &Chart<'_, S>, marks: &mut [bool])
    requires sound { Sound (S.meaning chart.now.source.now) }
    requires stands { Stands (S.meaning chart.now.source.now) chart.now }
    ensures { Marks (Frontier (S.meaning chart.now.source.now) chart.now.tokens.now) marks.old marks.new }
{
    let next = chart.tokens.len() as u32 + 1;
    // Each number of tokens at which an item may be due; each turn writes marks.
    for due in next..2 * next {
        mark_due(chart, due, marks);
    }
}
