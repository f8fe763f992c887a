// The chart of a grammar and tokens, as it stands in lent cells.
ghost use Rattle.std.specs.Prelude.{◌≡◌, ◌≤◌, length};
ghost use Rattle.chart.specs.Chart.{start_read};
ghost use Rattle.cells.specs.Facts.{phrase_of};

use crate::Room;
use cells::{Cell, Phrase, Short, Span};
use grammar::Source;

// What a chart is of, and where it stands: a grammar, tokens, and the cells, in which its facts end before cell `end`. That it stands
// there (`Stands`) is a premise and no ghost field. A ghost field's fact has at most one proof, and this one may have many, since a fact
// may be in the chart by many derivations; truncated (`∥ ∥₁`) it would be of no use, since the proofs use the derivations.
#[derive(Drop)]
pub struct Chart<'a, S> {
    pub source: &'a S,
    pub tokens: &'a [u32],
    pub cells: &'a [Cell],
    pub room: Room,
    pub end: usize,
}

impl<S: Source> Chart<'_, S> {
    // The start phrase, read as the whole of the tokens.
    pub fn start_phrase(&self) -> Phrase
        requires { length self.now.tokens.now ≤ 200 }
        ensures { phrase_of result ≡ start_read (S.meaning self.now.source.now) self.now.tokens.now }
    {
        Phrase {
            category: self.source.start(),
            spans: Short::One(Span::Read(0, self.tokens.len() as u8)),
        }
    }
}
