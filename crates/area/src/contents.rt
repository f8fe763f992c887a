// What an area holds, read of its cells.
ghost use Rattle.std.specs.Prelude.{ℕ, List};
ghost use Rattle.grammar.specs.Grammar.{Grammar};
ghost use Rattle.cells.specs.declared.Cell.{Cell as CellOf};
ghost use Rattle.area.specs.declared.numbers.Numbers.{Numbers as NumbersOf};
ghost use Rattle.area.specs.Held.{Held};
ghost use Rattle.area.specs.Contents.{ContentsOf, ChartOf};

use crate::numbers::Numbers;
use arrayvec::ArrayVec;
use cells::{Cell, MOST_TOKENS};
use closing::Chart;
use rows::Rows;

// The grammar and the tokens that stand in the cells, and the numbers of the area.
#[derive(Drop)]
pub struct Contents<'a> {
    pub source: Rows<'a>,
    pub tokens: ArrayVec<u32, MOST_TOKENS>,
    pub cells: &'a [Cell],
    pub numbers: Numbers,
}

impl<'a> Contents<'a> {
    // The chart of the grammar and the tokens.
    pub fn chart(&self) -> Chart<'_, Rows<'a>>
        requires { (g : Grammar) × (w : List ℕ) × (cs : List CellOf) × (n : NumbersOf) × Held g w cs n × ContentsOf g w cs n self.now }
        ensures { (g : Grammar) (w : List ℕ) (cs : List CellOf) (n : NumbersOf) → Held g w cs n → ContentsOf g w cs n self.now → ChartOf g w cs n result }
    {
        Chart {
            source: &self.source,
            tokens: &self.tokens,
            cells: self.cells,
            room: self.numbers.room(self.cells),
            end: self.numbers.end,
        }
    }
}
