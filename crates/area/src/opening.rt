// A grammar and the chart of no tokens in an area.
ghost use Rattle.std.specs.Prelude.{[], length, MatchOption};
ghost use Rattle.soundness.specs.Opening.{Accepted};
ghost use Rattle.area.specs.Held.{Held, TooFew, AllZero};
ghost use Rattle.area.specs.Opened.{Opening};

use crate::fault::OpeningFault;
use crate::numbers::Numbers;
use crate::tokens::clear;
use cells::Cell;
use closing::Room;
use copying::copy;
use extending::begin;
use grammar::Source;
use rows::{Counts, grammar_cells};
use soundness::{Shape, check};

// Puts an accepted grammar and the chart of no tokens into an area of zero cells, if there is room.
fn fill<S: Source>(source: &S, shape: &Shape, cells: &mut [Cell]) -> Option<Numbers>
    requires accepted { Accepted (S.meaning source.now) shape.now }
    requires zero { AllZero cells.old }
    ensures { MatchOption result (TooFew (S.meaning source.now) [] (length cells.new)) (Held (S.meaning source.now) [] cells.new) }
{
    let counts = Counts::from(shape);
    let base = grammar_cells(counts);
    let limit = cells.len();
    // A guard: there is no value yet whose absence could be passed on.
    if base > limit {
        return None;
    }
    copy(source, shape, cells);
    let end = begin(counts, cells, Room { base, limit })?;
    Some(Numbers {
        counts,
        held: 0,
        end,
    })
}

// Opens an area with the grammar of a source: it holds the grammar and no token, or every cell is zero.
pub fn open_area<S: Source>(source: &S, cells: &mut [Cell]) -> Result<Numbers, OpeningFault>
    ensures { Opening (S.meaning source.now) cells.new result }
{
    clear(cells);
    let shape = check(source)?;
    let filled = fill(source, &shape, cells);
    // No closure of `ok_or_else`: one that clears the cells would need clauses of its own, and be no shorter.
    if filled.is_none() {
        clear(cells);
    }
    filled.ok_or(OpeningFault::TooShort)
}
