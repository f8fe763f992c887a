// An open note: tokens are fed to it, and it tells which may follow.
ghost use Rattle.std.specs.Prelude.{◌≡◌, ℕ, List, length, replicate, Decides, Err};
ghost use Rattle.grammar.specs.Grammar.{Grammar};
ghost use Rattle.grammar.specs.Trees.{Complete};
ghost use Rattle.linearize.specs.Linearizes.{Linearizes};
ghost use Rattle.cells.specs.Facts.{zero_cell};
ghost use Rattle.area.specs.Held.{Unmoved};
ghost use Rattle.area.specs.Contents.{InUse};
ghost use Rattle.note.specs.Promises.{AcceptedFor, OpenState, Holds, Made, FedTo, NextTold, HoldsClosed};

use crate::accepted::Accepted;
use crate::closed::ClosedNote;
use crate::short_list::ListTooShort;
use area::{Numbers, clear};
use calls::{FeedingRefusal, close_in, feed, linearize_in, next_list};
use cells::Cell;
use linearize::Unlinearized;
use std::marker::Model;

// The area holds the grammar and the tokens fed so far.
#[derive(Drop)]
pub struct OpenNote<'a> {
    cells: &'a mut [Cell],
    numbers: Numbers,
}

impl<'a> Model for OpenNote<'a> {
    ghost Value = { OpenState };

    ghost view = { λ note. record { area = note.cells; numbers = note.numbers } };

    ghost invariant = { λ note. InUse note.cells.now note.numbers };
}

impl<'a> OpenNote<'a> {
    // Makes a note of an area for which a grammar was accepted.
    pub fn make(cells: &'a mut [Cell], accepted: Accepted) -> OpenNote<'a>
        requires { AcceptedFor cells.old accepted }
        ensures { Made cells.entry accepted result }
    {
        OpenNote {
            cells,
            numbers: accepted.numbers,
        }
    }

    // Feeds a token, and answers the cells in use then. Refused, the note is as it was.
    pub fn feed(&mut self, token: u32) -> Result<usize, FeedingRefusal>
        ensures area { self.new.area.ghost_name ≡ self.old.area.ghost_name }
        ensures length { length self.new.area.now ≡ length self.old.area.now }
        ensures fed { (g : Grammar) (w : List ℕ) → Holds g w self.old → FedTo g w token self.old self.new result }
    {
        let cells = &mut *self.cells;
        let numbers = feed(cells, self.numbers, token)?;
        let used = numbers.cells_in_use(cells);
        self.numbers = numbers;
        Ok(used)
    }

    // Writes the tokens that may follow to the front of the list, ascending, and answers how many they are. Refused, the list is as it
    // was.
    pub fn next_list(&self, list: &mut [u32]) -> Result<usize, ListTooShort>
        ensures { (g : Grammar) (w : List ℕ) → Holds g w self.now → NextTold g w list.old list.new result }
    {
        next_list(self.cells, self.numbers, list).ok_or(ListTooShort)
    }

    // Whether the tokens are some start tree's string.
    pub fn is_complete(&self) -> bool
        ensures { (g : Grammar) (w : List ℕ) → Holds g w self.now → Decides result (Complete g w) }
    {
        self.numbers.is_complete(self.cells)
    }

    // Writes the string of the start tree that the list of places writes to the front of the output, and answers its length.
    pub fn linearize(&self, list: &[u32], output: &mut [u32]) -> Result<usize, Unlinearized>
        ensures { (g : Grammar) (w : List ℕ) → Holds g w self.now → Linearizes g list.now output.old output.new result }
    {
        linearize_in(self.cells, self.numbers, list, output)
    }

    // Closes the note, complete or not.
    pub fn close(self) -> ClosedNote<'a>
        ensures area { result.area.ghost_name ≡ self.entry.area.ghost_name }
        ensures length { length result.area.now ≡ length self.entry.area.now }
        ensures closed { (g : Grammar) (w : List ℕ) → Holds g w self.entry → HoldsClosed g w result }
        ensures unmoved { Unmoved self.entry.area.now result.area.now }
    {
        let OpenNote { cells, numbers } = self;
        let closing = close_in(cells, numbers);
        ClosedNote {
            cells,
            numbers,
            closing,
        }
    }

    // Ends the note: hands back its area, with every cell zero.
    pub fn end(self) -> &'a mut [Cell]
        ensures area { result.ghost_name ≡ self.entry.area.ghost_name }
        ensures zero { result.now ≡ replicate (length self.entry.area.now) zero_cell }
    {
        let OpenNote { cells, .. } = self;
        clear(cells);
        cells
    }
}
