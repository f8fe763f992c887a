// The numbers of an area in use: those of its grammar, how many tokens it holds, and the cell where its facts end.
ghost use Rattle.std.specs.Prelude.{◌≡◌, ℕ, ◌+◌, List};
ghost use Rattle.grammar.specs.Grammar.{Grammar};
ghost use Rattle.area.specs.Held.{Held};
ghost use Rattle.area.specs.Contents.{InUse, RoomOf, SourceOf, ContentsOf};

use crate::contents::Contents;
use crate::tokens::held_tokens;
use arrayvec::ArrayVec;
use cells::{Cell, MOST_TOKENS};
use closing::{Room, rows_in};
use rows::{Counts, Rows, grammar_cells};

// That cells are in use with these numbers (`InUse`) is a premise of the methods and no type: the cells are lent anew for each call, change
// under the same numbers; and of such a fact the proofs use the derivations, which a ghost field would not keep (closing/src/charted.rt).
#[derive(Clone, Copy)]
pub struct Numbers {
    pub counts: Counts,
    pub held: usize,
    pub end: usize,
}

impl Numbers {
    // Where facts may lie: after the grammar, and before the tokens.
    pub fn room(self, cells: &[Cell]) -> Room
        requires { InUse cells.now self }
        ensures { (g : Grammar) (w : List ℕ) → Held g w cells.now self → RoomOf g w cells.now result }
    {
        Room {
            base: grammar_cells(self.counts),
            limit: cells.len() - self.held,
        }
    }

    // The cells in use: all but those between the facts and the tokens.
    pub fn cells_in_use(self, cells: &[Cell]) -> usize
        requires { InUse cells.now self }
        ensures { result ≡ self.end + self.held }
    {
        cells.len() - (self.room(cells).limit - self.end)
    }

    // The grammar that the area holds.
    pub fn source(self, cells: &[Cell]) -> Rows<'_>
        requires { InUse cells.now self }
        ensures { (g : Grammar) (w : List ℕ) → Held g w cells.now self → SourceOf g cells.now result }
    {
        rows_in(cells, grammar_cells(self.counts), self.counts)
    }

    // The tokens that the area holds.
    pub(crate) fn tokens(self, cells: &[Cell]) -> ArrayVec<u32, MOST_TOKENS>
        requires { InUse cells.now self }
        ensures { (g : Grammar) (w : List ℕ) → Held g w cells.now self → result.items ≡ w }
    {
        held_tokens(cells, self.held)
    }

    // What the area holds.
    pub fn contents(self, cells: &[Cell]) -> Contents<'_>
        requires { InUse cells.now self }
        ensures { (g : Grammar) (w : List ℕ) → Held g w cells.now self → ContentsOf g w cells.now self result }
    {
        Contents {
            source: self.source(cells),
            tokens: self.tokens(cells),
            cells,
            numbers: self,
        }
    }
}
