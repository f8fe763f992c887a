// The faults of one single function and of one single place, and the tests that they are made of. `FunctionsWithin` is a premise
// and no struct's field: it is known only once `first_fault` has found no fault at a function, and needed only from there on.
ghost use Rattle.std.specs.Prelude.{◌≡◌, ◌≤◌, not, length, take, ◌==◌};
ghost use Rattle.faults.specs.declared.refusal.Thing.TheVariants.{Function, Place as ThePlace};
ghost use Rattle.faults.specs.Faults.{over_limit, names_nothing, does_not_fit, symbols_over, symbol_unnamed, symbol_unfit, fault_from, fault_of};
ghost use Rattle.faults.specs.Limits.{most_arguments, most_constituents};
ghost use Rattle.faults.specs.Parts.{constituents_of, arguments_of, FunctionsWithin};
ghost use Rattle.faults.specs.Tests.{some_of};

use crate::limits;
use crate::refusal::{Fault, Thing};
use crate::scans::{any_argument, any_symbol};
use grammar::{Source, Symbol};

// Whether one of the first constituents has too many symbols.
fn constituents_over<S: Source>(source: &S, function: u32) -> bool
    ensures { result ≡ some_of symbols_over (take most_constituents (constituents_of (S.meaning source.now) function)) }
{
    (1..=limits::CONSTITUENTS).any(|l| source.symbol(function, l, limits::SYMBOLS + 1).is_some())
}

fn function_over<S: Source>(source: &S, function: u32) -> bool
    ensures { result ≡ over_limit (S.meaning source.now) (Function function) }
{
    source
        .arity(function)
        .is_some_and(|arity| arity > limits::ARGUMENTS)
        || source
            .constituents(function)
            .is_some_and(|count| count > limits::CONSTITUENTS)
        || constituents_over(source, function)
}

fn symbol_unnamed(symbol: Symbol, tokens: u32, arity: u32) -> bool
    ensures { result ≡ symbol_unnamed tokens arity symbol }
{
    match symbol {
        Symbol::Token(t) => t >= tokens,
        Symbol::Argument(k, l) => k == 0 || k > arity || l == 0,
    }
}

// The fault of a thing, by its tests: a limit comes before a name, and a name before a fit. Three bools, as in its definition: what
// three tests found of one thing, which is told here and kept nowhere.
pub(crate) fn fault_from(thing: Thing, over: bool, unnamed: bool, unfit: bool) -> Option<Fault>
    ensures { result ≡ fault_from thing over unnamed unfit }
{
    match (over, unnamed, unfit) {
        (true, _, _) => Some(Fault::OverLimit(thing)),
        (_, true, _) => Some(Fault::NamesNothing(thing)),
        (_, _, true) => Some(Fault::DoesNotFit(thing)),
        _ => None,
    }
}

pub(crate) fn function_fault<S: Source>(source: &S, function: u32) -> Option<Fault>
    ensures { result ≡ fault_of (S.meaning source.now) (Function function) }
{
    let arity = source.arity(function)?;
    let tokens = source.tokens();
    let over = function_over(source, function);
    let unnamed = any_symbol(
        source,
        function,
        |symbol| symbol_unnamed(symbol, tokens, arity),
    );
    fault_from(Thing::Function(function), over, unnamed, false)
}

fn place_unnamed<S: Source>(source: &S, place: u32) -> bool
    ensures { result ≡ names_nothing (S.meaning source.now) (ThePlace place) }
{
    // An empty place names nothing that is not there, and an absent function is such a thing: the early returns set the two apart.
    let Some(filled) = source.place(place) else {
        return false;
    };
    let Some(arity) = source.arity(filled.function) else {
        return true;
    };
    let categories = source.categories();
    filled.result >= categories
        || any_argument(source, place, arity, |category| category >= categories)
}

// Whether the symbol asks for a constituent that its argument has not.
fn symbol_unfit<S: Source>(source: &S, place: u32, symbol: Symbol) -> bool
    ensures { result ≡ symbol_unfit (S.meaning source.now) (arguments_of (S.meaning source.now) place) symbol }
{
    match symbol {
        Symbol::Token(_) => false,
        Symbol::Argument(k, l) => source
            .argument(place, k)
            .and_then(|category| source.dimension(category))
            .is_some_and(|dimension| l > dimension),
    }
}

// Whether the arguments of a place are not as many as its function takes.
fn arguments_differ<S: Source>(source: &S, place: u32, arity: u32) -> bool
    requires { arity ≤ most_arguments }
    ensures { result ≡ not (length (arguments_of (S.meaning source.now) place) == arity) }
{
    source.argument(place, arity + 1).is_some()
        || arity > 0 && source.argument(place, arity).is_none()
}

fn place_unfit<S: Source>(source: &S, place: u32) -> bool
    requires { FunctionsWithin (S.meaning source.now) }
    ensures { result ≡ does_not_fit (S.meaning source.now) (ThePlace place) }
{
    // What follows needs all three of these: closures within closures would be less plain.
    let Some(filled) = source.place(place) else {
        return false;
    };
    let Some(arity) = source.arity(filled.function) else {
        return false;
    };
    let Some(count) = source.constituents(filled.function) else {
        return false;
    };
    arguments_differ(source, place, arity)
        || source
            .dimension(filled.result)
            .is_some_and(|dimension| dimension != count)
        || any_symbol(
            source,
            filled.function,
            |symbol| symbol_unfit(source, place, symbol),
        )
}

pub(crate) fn place_fault<S: Source>(source: &S, place: u32) -> Option<Fault>
    requires { FunctionsWithin (S.meaning source.now) }
    ensures { result ≡ fault_of (S.meaning source.now) (ThePlace place) }
{
    let unnamed = place_unnamed(source, place);
    let unfit = place_unfit(source, place);
    fault_from(Thing::Place(place), false, unnamed, unfit)
}
