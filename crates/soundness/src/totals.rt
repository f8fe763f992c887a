// How many constituents, symbols and arguments a sound grammar has in all. Where the source answers that a function or a production
// is not there, there are none of these: the 0 is a count, and not a sign for none.
ghost use Rattle.std.specs.Prelude.{◌≡◌, ◌*◌, ◌≤◌, min, length, take, sum_by};
ghost use Rattle.faults.specs.Parts.{constituents_of, symbols_of};
ghost use Rattle.faults.specs.Limits.{most_constituents, most_symbols};
ghost use Rattle.soundness.specs.Totals.{place_arity, constituent_total, symbol_total, argument_total};

use faults::{Faultless, limits};
use grammar::Source;

// The symbols of a constituent, up to the most that are allowed.
fn symbol_count<S: Source>(source: &S, function: u32, constituent: u32) -> u32
    ensures { result ≡ min most_symbols (length (symbols_of (S.meaning source.now) function constituent)) }
{
    (0..limits::SYMBOLS)
        .find(|i| source.symbol(function, constituent, *i + 1).is_none())
        .unwrap_or(limits::SYMBOLS)
}

// The symbols of the first constituents of a function.
fn function_symbols<S: Source>(source: &S, function: u32) -> u32
    ensures value { result ≡ sum_by (λ α. min most_symbols (length α)) (take most_constituents (constituents_of (S.meaning source.now) function)) }
    ensures bound { result ≤ most_constituents * most_symbols }
{
    (1..=limits::CONSTITUENTS)
        .map(|l| symbol_count(source, function, l))
        .sum()
}

// The arguments of a place, as many as its function takes.
fn place_arguments<S: Source>(source: &S, place: u32) -> u32
    ensures { result ≡ place_arity (S.meaning source.now) place }
{
    source
        .place(place)
        .and_then(|filled| source.arity(filled.function))
        .unwrap_or(0)
}

pub(crate) fn constituent_total<S: Source>(grammar: &Faultless<'_, S>) -> u32
    ensures { result ≡ constituent_total (S.meaning grammar.now.source.now) }
{
    (0..grammar.source.functions())
        .map(|f| grammar.source.constituents(f).unwrap_or(0))
        .sum()
}

pub(crate) fn symbol_total<S: Source>(grammar: &Faultless<'_, S>) -> u32
    ensures { result ≡ symbol_total (S.meaning grammar.now.source.now) }
{
    (0..grammar.source.functions())
        .map(|f| function_symbols(grammar.source, f))
        .sum()
}

pub(crate) fn argument_total<S: Source>(grammar: &Faultless<'_, S>) -> u32
    ensures { result ≡ argument_total (S.meaning grammar.now.source.now) }
{
    (0..grammar.source.places())
        .map(|p| place_arguments(grammar.source, p))
        .sum()
}
