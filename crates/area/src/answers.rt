// What an area tells of its tokens: which may follow, and whether they are complete.
ghost use Rattle.std.specs.Prelude.{ℕ, List, Decides};
ghost use Rattle.grammar.specs.Grammar.{Grammar};
ghost use Rattle.grammar.specs.Trees.{GoesOn, Complete};
ghost use Rattle.frontier.specs.Marks.{Marks};
ghost use Rattle.area.specs.Held.{Held};
ghost use Rattle.area.specs.Contents.{InUse};

use crate::numbers::Numbers;
use cells::Cell;
use frontier::{accepted, frontier};

impl Numbers {
    // Marks the tokens with which some start tree's string goes on from those that the area holds.
    pub fn mark_next(self, cells: &[Cell], marks: &mut [bool])
        requires { InUse cells.now self }
        ensures { (g : Grammar) (w : List ℕ) → Held g w cells.now self → Marks (GoesOn g w) marks.old marks.new }
    {
        let contents = self.contents(cells);
        frontier(&contents.chart(), marks);
    }

    // Whether the tokens that the area holds are some start tree's string.
    pub fn is_complete(self, cells: &[Cell]) -> bool
        requires { InUse cells.now self }
        ensures { (g : Grammar) (w : List ℕ) → Held g w cells.now self → Decides result (Complete g w) }
    {
        let contents = self.contents(cells);
        accepted(&contents.chart())
    }
}
