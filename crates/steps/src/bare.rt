// Rules and phrases with nothing read.
ghost use Rattle.std.specs.Prelude.{◌≡◌, map};
ghost use Rattle.std.specs.Option.{option_map};
ghost use Rattle.grammar.specs.Grammar.{from_one};
ghost use Rattle.chart.specs.Chart.{bare};
ghost use Rattle.cells.specs.Facts.{list_of, phrase_of};
ghost use Rattle.faults.specs.Parts.{arguments_of};
ghost use Rattle.faults.specs.Sound.{Sound};
ghost use Rattle.steps.specs.Bare.{BareAt};

use cells::{Phrase, Rule, Short, Span};
use grammar::Source;

// The bare phrase of a category.
pub fn bare_phrase<S: Source>(source: &S, category: u32) -> Phrase
    requires { Sound (S.meaning source.now) }
    ensures { phrase_of result ≡ bare (S.meaning source.now) category }
{
    // By how many: each number of constituents is a case, none of them passed on.
    let spans = match source.dimension(category) {
        None => Short::Nil,
        Some(1) => Short::One(Span::Unread),
        Some(2) => Short::Two(Span::Unread, Span::Unread),
        Some(_) => Short::Three(Span::Unread, Span::Unread, Span::Unread),
    };
    Phrase { category, spans }
}

// The bare phrase of argument `i` of a place, counted from 1.
fn bare_argument<S: Source>(source: &S, place: u32, i: u32) -> Option<Phrase>
    requires { Sound (S.meaning source.now) }
    ensures { option_map phrase_of result ≡ from_one (map (bare (S.meaning source.now)) (arguments_of (S.meaning source.now) place)) i }
{
    let category = source.argument(place, i)?;
    Some(bare_phrase(source, category))
}

// The bare phrases of the arguments of a place.
fn bare_arguments<S: Source>(source: &S, place: u32) -> Short<Phrase>
    requires { Sound (S.meaning source.now) }
    ensures { map phrase_of (list_of result) ≡ map (bare (S.meaning source.now)) (arguments_of (S.meaning source.now) place) }
{
    // One after another: behind one that is not there none is asked for. A let-else each: with none more, those in hand are the answer.
    let Some(a) = bare_argument(source, place, 1) else {
        return Short::Nil;
    };
    let Some(b) = bare_argument(source, place, 2) else {
        return Short::One(a);
    };
    match bare_argument(source, place, 3) {
        None => Short::Two(a, b),
        Some(c) => Short::Three(a, b, c),
    }
}

// The bare rule of a place, if it is filled.
pub fn bare_rule<S: Source>(source: &S, place: u32) -> Option<Rule>
    requires { Sound (S.meaning source.now) }
    ensures { BareAt (S.meaning source.now) place result }
{
    let filled = source.place(place)?;
    let left = bare_phrase(source, filled.result);
    let arguments = bare_arguments(source, place);
    Some(Rule {
        left,
        place,
        arguments,
    })
}
