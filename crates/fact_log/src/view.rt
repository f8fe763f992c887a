// One index of the facts in lent cells. Its methods stand in index.rt, since their clauses speak of the struct by definitions that import it.
ghost use Rattle.std.specs.Prelude.{◌<◌, ◌≤◌, length};

use cells::Cell;

// An index is a number and no enum: 1 to 3 are the constituents' own numbers, and clauses speak of each number below 5.
// Index `slot` of the facts that stand in the cells from `base` on and before `end`.
#[derive(Clone, Copy)]
pub(crate) struct Index<'a> {
    pub cells: &'a [Cell],
    pub base: usize,
    pub end: usize,
    pub slot: usize,
    ghost positive: { 0 < base },
    ghost begun: { base ≤ end },
    ghost inside: { end ≤ length cells.now },
}
