// The facts of a chart in lent cells, from cell `base` on and before cell `end`: what is asked of them, and how they grow.
// `cells`, `base` and `end` are no struct: the cells are lent, to be read or to be written, and `end` is what changes. `Log` is a
// premise and no type, since the cells change under the same numbers.
ghost use Rattle.std.specs.Prelude.{◌≡◌, ℕ, ◌+◌, ◌<◌, ◌≤◌, List, length, Decides, MatchOption};
ghost use Rattle.fact_log.specs.Index.{things, LastOf};
ghost use Rattle.fact_log.specs.Log.{Log, Logged, Appended, Later};
ghost use Rattle.fact_log.specs.Things.{slot_of};

use crate::index::{file_last, refile};
use crate::things::{Thing, slot_of};
use crate::view::Index;
use cells::{Cell, Fact, Row, Waiting, ZERO};

// Whether the fact is there.
pub fn contains(cells: &[Cell], base: usize, end: usize, fact: Fact) -> bool
    requires { (limit : ℕ) × Log cells.now base end limit }
    ensures { Decides result (Logged cells.now base end fact) }
{
    let index = Index {
        cells,
        base,
        end,
        slot: 0,
    };
    index.last_before(&Thing::Fact(fact), end).is_some()
}

// The cell of the last fact before the cell `before` that is looked up by the thing.
pub fn latest(cells: &[Cell], base: usize, end: usize, thing: Thing, before: usize) -> Option<usize>
    requires log { (limit : ℕ) × Log cells.now base end limit }
    requires range { before ≤ end }
    ensures { LastOf (things cells.now (slot_of thing)) base thing before result }
{
    let index = Index {
        cells,
        base,
        end,
        slot: slot_of(thing),
    };
    index.last_before(&thing, before)
}

// Appends a fact that is not there, with what it waits for, if there is room before `limit`: where the facts end then.
pub fn append(
    cells: &mut [Cell],
    base: usize,
    end: usize,
    limit: usize,
    fact: Fact,
    wait: Waiting,
) -> Option<usize>
    requires log { Log cells.old base end limit }
    requires absent { Logged cells.old base end fact → ⊥ }
    ensures { MatchOption result ((end ≡ limit) × (cells.new ≡ cells.old)) (λ to. (to ≡ end + 1) × Appended cells.old cells.new base end limit fact wait) }
{
    // A guard, and no `then`: what follows writes to the cells.
    if end >= limit {
        return None;
    }
    cells[end] = Cell {
        row: Row::Fact(fact),
        wait,
        ..ZERO
    };
    file_last(cells, base, end);
    Some(end + 1)
}

// Cuts the facts back to those before the cell `to`: the cells are exactly as they were when the facts ended there.
pub fn cut(cells: &mut [Cell], base: usize, end: usize, to: usize)
    requires log { (limit : ℕ) × Log cells.old base end limit }
    requires range { (base ≤ to) × (to ≤ end) }
    ensures { (before : List Cell) (limit : ℕ) → Log cells.old base end limit → Log before base to limit → Later before cells.old base to limit → cells.new ≡ before }
{
    cells[to..end].fill(ZERO);
    refile(cells, base, to);
}
