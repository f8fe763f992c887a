// The steps that a token opens.
ghost use Rattle.std.specs.Prelude.{◌≤◌, length, take};
ghost use Rattle.faults.specs.Sound.{Sound};
ghost use Rattle.closing.specs.State.{Whole};
ghost use Rattle.closing.specs.Runs.{grammar_of, ReadyTo, Leaves};
ghost use Rattle.rows.specs.Links.{Linked};
ghost use Rattle.fact_log.specs.Log.{Log};
ghost use Rattle.fact_log.specs.declared.things.Thing.TheVariants.{Due};
ghost use Rattle.extending.specs.Charted.{DueIn, Before};

use cells::Cell;
use closing::Run;
use fact_log::things::Thing;

// Takes each item that moves on, if it does, now that there are so many tokens.
fn open_due(run: &Run<'_>, cells: &mut [Cell], end: usize) -> Option<usize>
    requires ready { ReadyTo run.now cells.old end }
    ensures { Leaves run.now cells.old cells.new end (DueIn (grammar_of run.now cells.old) run.now.tokens.now cells.old cells.new run.now.room.base end (Due (length run.now.tokens.now)) 0) result }
{
    let due = Thing::Due(run.tokens.len() as u32);
    let mut to = end;
    let mut item = fact_log::latest(cells, run.room.base, end, due, end);
    while let Some(p) = item {
        to = run.take(cells, to, p)?;
        item = fact_log::latest(cells, run.room.base, to, due, p);
    }
    Some(to)
}

// The chart of the tokens, after that of all but the last.
pub(crate) fn extended(run: &Run<'_>, cells: &mut [Cell], end: usize) -> Option<usize>
    requires sound { Sound (grammar_of run.now cells.old) }
    requires linked { Linked (take run.now.room.base cells.old) run.now.counts }
    requires tokens { length run.now.tokens.now ≤ 200 }
    requires before { Before (grammar_of run.now cells.old) run.now.tokens.now cells.old run.now.room.base end run.now.room.limit }
    ensures { Leaves run.now cells.old cells.new end (Whole (grammar_of run.now cells.old) run.now.tokens.now cells.new run.now.room.base) result }
{
    let opened = open_due(run, cells, end)?;
    run.close(cells, opened, end)
}

// The chart of the tokens, from nothing.
pub(crate) fn begun(run: &Run<'_>, cells: &mut [Cell]) -> Option<usize>
    requires sound { Sound (grammar_of run.now cells.old) }
    requires linked { Linked (take run.now.room.base cells.old) run.now.counts }
    requires tokens { length run.now.tokens.now ≤ 200 }
    requires log { Log cells.old run.now.room.base run.now.room.base run.now.room.limit }
    ensures { Leaves run.now cells.old cells.new run.now.room.base (Whole (grammar_of run.now cells.old) run.now.tokens.now cells.new run.now.room.base) result }
{
    let start = run.bare_phrase_for(cells, run.counts.start);
    let started = run.predict_live(cells, run.room.base, start, 1, 0)?;
    run.close(cells, started, run.room.base)
}
