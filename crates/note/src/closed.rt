// A closed note: it takes no more tokens, and is weighed.
ghost use Rattle.std.specs.Prelude.{◌≡◌, ℕ, List, length, replicate};
ghost use Rattle.grammar.specs.Grammar.{Grammar};
ghost use Rattle.linearize.specs.Linearizes.{Linearizes};
ghost use Rattle.cells.specs.Facts.{zero_cell};
ghost use Rattle.calls.specs.Closed.{Weighed};
ghost use Rattle.note.specs.Promises.{ClosedState, InClosed, HoldsClosed};

use algebra::Algebra;
use area::{Numbers, clear};
use calls::{Closing, WeighingRefusal, linearize_in, weigh_in};
use cells::Cell;
use linearize::Unlinearized;
use std::marker::Model;
use weigh::Request;

// The area holds the grammar and the tokens, and the phrases that made rules make are numbered.
#[derive(Drop)]
pub struct ClosedNote<'a> {
    pub(crate) cells: &'a mut [Cell],
    pub(crate) numbers: Numbers,
    pub(crate) closing: Closing,
}

impl<'a> Model for ClosedNote<'a> {
    ghost Value = { ClosedState };

    ghost view = { λ note. record { area = note.cells; numbers = note.numbers; closing = note.closing } };

    ghost invariant = { λ note. InClosed note.cells.now note.numbers note.closing };
}

impl<'a> ClosedNote<'a> {
    // The bound q: a complete note has a start tree of at most this height, and weighing takes twice as many working values.
    pub fn bound(&self) -> usize
        ensures { result ≡ self.now.closing.bound }
    {
        self.closing.bound
    }

    // Writes the string of the start tree that the list of places writes to the front of the output, and answers its length.
    pub fn linearize(&self, list: &[u32], output: &mut [u32]) -> Result<usize, Unlinearized>
        ensures { (g : Grammar) (w : List ℕ) → HoldsClosed g w self.now → Linearizes g list.now output.old output.new result }
    {
        linearize_in(self.cells, self.numbers, list, output)
    }

    // Weighs the note to a depth, which ends it also where it is refused: hands back its area, with every cell zero, and the sum.
    pub fn weigh<V: Algebra>(
        self,
        depth: u32,
        weights: &[u32],
        work: &mut [u32],
    ) -> (&'a mut [Cell], Result<V, WeighingRefusal>)
        ensures area { result.0.ghost_name ≡ self.entry.area.ghost_name }
        ensures zero { result.0.now ≡ replicate (length self.entry.area.now) zero_cell }
        ensures weighed { (g : Grammar) (w : List ℕ) → HoldsClosed g w self.entry → Weighed V.nought V.plus V.times V.reads V.writes g w self.entry.closing.bound depth weights.now work.old work.new result.1 }
    {
        let ClosedNote {
            cells,
            numbers,
            closing,
        } = self;
        let request = Request {
            phrases: closing.phrases,
            depth,
            weights,
        };
        let sum = weigh_in(cells, numbers, &request, work);
        (cells, sum)
    }

    // Ends the note: hands back its area, with every cell zero.
    pub fn end(self) -> &'a mut [Cell]
        ensures area { result.ghost_name ≡ self.entry.area.ghost_name }
        ensures zero { result.now ≡ replicate (length self.entry.area.now) zero_cell }
    {
        let ClosedNote { cells, .. } = self;
        clear(cells);
        cells
    }
}
