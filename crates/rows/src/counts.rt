// The numbers of a grammar, and how many cells it takes.
ghost use Rattle.std.specs.Prelude.{◌≡◌};
ghost use Rattle.chart.specs.Chart.{grammar_cells};
ghost use Rattle.grammar.specs.Grammar.{Grammar};
ghost use Rattle.soundness.specs.Opening.{Accepted};
ghost use Rattle.rows.specs.Meaning.{category_part, function_part, place_part};
ghost use Rattle.rows.specs.Counted.{CountsOf, counts_in, cells_counted};

use crate::sorts::Part;
use soundness::Shape;

// The tokens and the start category of a grammar, and how many there are of each of its things. They are eight numbers of soundness's
// `Shape` again: that is what the check answers to its caller, in a crate below, and it has the heights besides, which are none of a
// grammar in cells; a `Shape` that held these counts would be read through one field more, and say no more.
#[derive(Clone, Copy)]
pub struct Counts {
    pub tokens: u32,
    pub start: u32,
    pub categories: u32,
    pub functions: u32,
    pub constituents: u32,
    pub symbols: u32,
    pub places: u32,
    pub arguments: u32,
}

// Where the rows of the categories, of the functions and of the places stand.
impl Counts {
    pub(crate) fn category_part(self) -> Part
        ensures { result ≡ category_part self }
    {
        Part {
            first: 0,
            count: self.categories,
        }
    }

    pub(crate) fn function_part(self) -> Part
        ensures { result ≡ function_part self }
    {
        Part {
            first: self.categories as usize,
            count: self.functions,
        }
    }

    pub(crate) fn place_part(self) -> Part
        ensures { result ≡ place_part self }
    {
        Part {
            first: self.categories as usize + self.functions as usize,
            count: self.places,
        }
    }
}

// The counts of a grammar that was accepted with this shape.
impl<'a> From<&'a Shape> for Counts {
    ghost from_gives = { λ shape counts. (counts ≡ counts_in shape.now) × ((g : Grammar) → Accepted g shape.now → CountsOf g counts) };

    // Field by field: what a shape has besides, the heights, is none of the numbers of a grammar in cells.
    fn from(shape: &'a Shape) -> Counts {
        Counts {
            tokens: shape.tokens,
            start: shape.start,
            categories: shape.categories,
            functions: shape.functions,
            constituents: shape.constituents,
            symbols: shape.symbols,
            places: shape.places,
            arguments: shape.arguments,
        }
    }
}

// How many cells a grammar with these counts takes.
pub fn grammar_cells(counts: Counts) -> usize
    ensures sum { result ≡ cells_counted counts }
    ensures cells { (g : Grammar) → CountsOf g counts → result ≡ grammar_cells g }
{
    counts.categories as usize
        + counts.functions as usize
        + counts.places as usize
        + counts.constituents as usize
        + counts.symbols as usize
        + counts.arguments as usize
}
