// Joining facts that stand in cells.
ghost use Rattle.std.specs.Prelude.{◌<◌, ◌≤◌};
ghost use Rattle.closing.specs.Runs.{grammar_of, ReadyTo, Leaves};
ghost use Rattle.closing.specs.Joined.{PairIn, ChainIn, PartIn};

use crate::Run;
use crate::looking::{item_in, joined, made_in};
use cells::{Cell, Phrase};
use fact_log::things::{Key, Thing};

impl Run<'_> {
    // Joins the item in one cell with the made rule in another, where they hold that.
    fn join_pair(&self, cells: &mut [Cell], end: usize, item: usize, made: usize) -> Option<usize>
        requires ready { ReadyTo self.now cells.old end }
        requires range { (self.now.room.base ≤ item) × (item < end) × (self.now.room.base ≤ made) × (made < end) }
        ensures { Leaves self.now cells.old cells.new end (λ e. PairIn (grammar_of self.now cells.old) cells.old cells.new self.now.room.base item made e) result }
    {
        let first = cells[item];
        let second = cells[made];
        // No `?`, here and below: nothing to join is not no room.
        let (Some(x), Some(q)) = (item_in(first.row), made_in(second.row)) else {
            return Some(end);
        };
        match joined(x, first.wait, q) {
            Some(z) => self.add(cells, end, z),
            None => Some(end),
        }
    }

    // Joins the fact in the cell `at` with each fact up to it that is looked up by the thing.
    pub(crate) fn join_chain(
        &self,
        cells: &mut [Cell],
        end: usize,
        at: usize,
        thing: Thing,
    ) -> Option<usize>
        requires ready { ReadyTo self.now cells.old end }
        requires range { (self.now.room.base ≤ at) × (at < end) }
        ensures { Leaves self.now cells.old cells.new end (λ e. ChainIn (grammar_of self.now cells.old) cells.old cells.new self.now.room.base at thing 0 e) result }
    {
        let mut to = end;
        let mut other = fact_log::latest(cells, self.room.base, end, thing, at + 1);
        while let Some(p) = other {
            let mid = self.join_pair(cells, to, at, p)?;
            to = self.join_pair(cells, mid, p, at)?;
            other = fact_log::latest(cells, self.room.base, to, thing, p);
        }
        Some(to)
    }

    // Joins the made rule in the cell `at`, with this left side, with the items up to it that wait for constituent `s`.
    pub(crate) fn join_part(
        &self,
        cells: &mut [Cell],
        end: usize,
        at: usize,
        left: Phrase,
        s: u32,
    ) -> Option<usize>
        requires ready { ReadyTo self.now cells.old end }
        requires range { (self.now.room.base ≤ at) × (at < end) }
        ensures { Leaves self.now cells.old cells.new end (λ e. PartIn (grammar_of self.now cells.old) cells.old cells.new self.now.room.base at left s e) result }
    {
        // No `map_or`: of a closure that writes to the cells a proof knows nothing.
        match Key::part(false, left, s) {
            Some(key) => self.join_chain(cells, end, at, Thing::Key(key)),
            None => Some(end),
        }
    }
}
