// The chart in cells, or no room for it. Each of the two functions cuts the cells back by itself: a function for that would have to
// say what `Extends` says, of any grammar, tokens and cells before.
ghost use Rattle.std.specs.Prelude.{◌≤◌, [], length, take};
ghost use Rattle.faults.specs.Sound.{Sound};
ghost use Rattle.fact_log.specs.Log.{Log};
ghost use Rattle.rows.specs.Links.{Linked};
ghost use Rattle.closing.specs.Ready.{grammar_in};
ghost use Rattle.closing.specs.Runs.{grammar_of};
ghost use Rattle.extending.specs.Charted.{Before, Extends};

use crate::opening::{begun, extended};
use cells::Cell;
use closing::{Room, Run};
use rows::Counts;

// Puts the chart of no tokens into the cells: where its facts end. Where there is no room for it, the cells are as they were.
pub fn begin(counts: Counts, cells: &mut [Cell], room: Room) -> Option<usize>
    requires sound { Sound (grammar_in cells.old room.base counts) }
    requires linked { Linked (take room.base cells.old) counts }
    requires log { Log cells.old room.base room.base room.limit }
    ensures { Extends (grammar_in cells.old room.base counts) [] cells.old cells.new room.base room.base room.limit result }
{
    let run = Run {
        counts,
        tokens: &[],
        room,
    };
    let made = begun(&run, cells);
    if made.is_none() {
        fact_log::cut(cells, room.base, room.limit, room.base);
    }
    made
}

// Puts the chart of the run's tokens into the cells, which hold that of all tokens but the last: where its facts end. Where there is
// no room for it, the cells are as they were.
pub fn extend(run: &Run<'_>, cells: &mut [Cell], end: usize) -> Option<usize>
    requires sound { Sound (grammar_of run.now cells.old) }
    requires linked { Linked (take run.now.room.base cells.old) run.now.counts }
    requires tokens { length run.now.tokens.now ≤ 200 }
    requires before { Before (grammar_of run.now cells.old) run.now.tokens.now cells.old run.now.room.base end run.now.room.limit }
    ensures { Extends (grammar_of run.now cells.old) run.now.tokens.now cells.old cells.new run.now.room.base end run.now.room.limit result }
{
    let made = extended(run, cells, end);
    if made.is_none() {
        fact_log::cut(cells, run.room.base, run.room.limit, end);
    }
    made
}
