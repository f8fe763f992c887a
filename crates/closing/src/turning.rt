// Taking the facts one after another, and adding what each leads to.
ghost use Rattle.std.specs.Prelude.{◌<◌, ◌≤◌};
ghost use Rattle.cells.specs.declared.Fact.{Fact as FactOf};
ghost use Rattle.cells.specs.declared.Fact.TheVariants.{Item, Made};
ghost use Rattle.fact_log.specs.Log.{FactAt};
ghost use Rattle.steps.specs.Nexts.{BeforeArgument, UnreadPart};
ghost use Rattle.steps.specs.Waits.{Told};
ghost use Rattle.closing.specs.State.{ClosedTo};
ghost use Rattle.closing.specs.Runs.{grammar_of, ReadyTo, Leaves};
ghost use Rattle.closing.specs.Turned.{Turned};

use crate::Run;
use cells::{Cell, Fact, Row, Waiting};
use fact_log::things::{Key, Thing};
use faults::limits;
use steps::next::Next;

impl Run<'_> {
    // Takes the item in the cell `at`, which waits for constituent `s` of its argument `d`.
    fn take_waiting(
        &self,
        cells: &mut [Cell],
        end: usize,
        at: usize,
        x: cells::Item,
        d: u32,
        s: u32,
    ) -> Option<usize>
        requires ready { ReadyTo self.now cells.old end }
        requires taken { (self.now.room.base ≤ at) × (at < end) × FactAt cells.old at (Item x) }
        requires waits { BeforeArgument (grammar_of self.now cells.old) x d s × UnreadPart x d s }
        ensures { Leaves self.now cells.old cells.new end (Turned (grammar_of self.now cells.old) self.now.tokens.now cells.old cells.new self.now.room.base at (Item x)) result }
    {
        // No `?`: nothing to add is not no room.
        let Some(awaited) = x.rule.arguments.at(d) else {
            return Some(end);
        };
        let started = self.predict_live(cells, end, awaited, s, x.end)?;
        let whole = Key::alone(true, awaited);
        let predicted = self.join_chain(cells, started, at, Thing::Key(whole))?;
        let part = Key::waiting(true, awaited, s, x.end);
        self.join_chain(cells, predicted, at, Thing::Key(part))
    }

    // Takes the item in the cell `at`.
    fn take_item(
        &self,
        cells: &mut [Cell],
        end: usize,
        at: usize,
        x: cells::Item,
        wait: Waiting,
    ) -> Option<usize>
        requires ready { ReadyTo self.now cells.old end }
        requires taken { (self.now.room.base ≤ at) × (at < end) × FactAt cells.old at (Item x) }
        requires told { Told (grammar_of self.now cells.old) x wait }
        ensures { Leaves self.now cells.old cells.new end (Turned (grammar_of self.now cells.old) self.now.tokens.now cells.old cells.new self.now.room.base at (Item x)) result }
    {
        if let Waiting::Part(d, s) = wait {
            return self.take_waiting(cells, end, at, x, d, s);
        }
        match self.next_for(cells, x) {
            Next::Moves(fact) => self.add(cells, end, fact),
            Next::Waits(_, _) | Next::Stuck => Some(end),
        }
    }

    // Takes the made rule in the cell `at`.
    fn take_made(
        &self,
        cells: &mut [Cell],
        end: usize,
        at: usize,
        made: cells::Rule,
    ) -> Option<usize>
        requires ready { ReadyTo self.now cells.old end }
        requires taken { (self.now.room.base ≤ at) × (at < end) × FactAt cells.old at (Made made) }
        ensures { Leaves self.now cells.old cells.new end (Turned (grammar_of self.now cells.old) self.now.tokens.now cells.old cells.new self.now.room.base at (Made made)) result }
    {
        let whole = Thing::Key(Key::alone(false, made.left));
        let mut to = self.join_chain(cells, end, at, whole)?;
        for s in 1..=limits::DIMENSION {
            to = self.join_part(cells, to, at, made.left, s)?;
        }
        Some(to)
    }

    // Takes the fact in the cell `at`.
    pub fn take(&self, cells: &mut [Cell], end: usize, at: usize) -> Option<usize>
        requires ready { ReadyTo self.now cells.old end }
        requires taken { (self.now.room.base ≤ at) × (at < end) }
        ensures { Leaves self.now cells.old cells.new end (λ e. (f : FactOf) → FactAt cells.old at f → Turned (grammar_of self.now cells.old) self.now.tokens.now cells.old cells.new self.now.room.base at f e) result }
    {
        let cell = cells[at];
        // By cases of the row; other rows lead to nothing.
        match cell.row {
            Row::Fact(Fact::Item(x)) => self.take_item(cells, end, at, x, cell.wait),
            Row::Fact(Fact::Made(made)) => self.take_made(cells, end, at, made),
            _ => Some(end),
        }
    }

    // Takes all facts from the cell `done` on, those too that are added meanwhile.
    pub fn close(&self, cells: &mut [Cell], end: usize, done: usize) -> Option<usize>
        requires ready { ReadyTo self.now cells.old end }
        requires closed { (self.now.room.base ≤ done) × (done ≤ end) × ClosedTo (grammar_of self.now cells.old) self.now.tokens.now cells.old self.now.room.base done end }
        ensures { Leaves self.now cells.old cells.new end (λ e. ClosedTo (grammar_of self.now cells.old) self.now.tokens.now cells.new self.now.room.base e e) result }
    {
        let mut to = end;
        let mut at = done;
        // The end moves on while facts are taken, so no range says how often.
        while at < to {
            to = self.take(cells, to, at)?;
            at += 1;
        }
        Some(to)
    }
}
