// The first fault of a grammar, but for the want of a start tree.
ghost use Rattle.std.specs.Prelude.{◌≡◌, length, map};
ghost use Rattle.faults.specs.declared.refusal.Thing.TheVariants.{Count, Category, Start, Function, Place};
ghost use Rattle.faults.specs.Faults.{dimension_over, all_counted, fault_of, first_things};
ghost use Rattle.faults.specs.Parts.{FunctionsWithin};
ghost use Rattle.faults.specs.Sound.{FirstFault};
ghost use Rattle.faults.specs.Tests.{first_of, there_and};

use crate::limits;
use crate::refusal::{Counted, Fault, Thing};
use crate::things::{fault_from, function_fault, place_fault};
use grammar::Source;

fn count_fault<S: Source>(source: &S, counted: Counted) -> Option<Fault>
    ensures { result ≡ fault_of (S.meaning source.now) (Count counted) }
{
    let over = match counted {
        Counted::Tokens => source.tokens() > limits::TOKENS,
        Counted::Categories => source.categories() > limits::CATEGORIES,
        Counted::Functions => source.functions() > limits::FUNCTIONS,
        Counted::Places => source.places() > limits::PLACES,
    };
    fault_from(Thing::Count(counted), over, false, false)
}

fn counts_fault<S: Source>(source: &S) -> Option<Fault>
    ensures { result ≡ first_of (fault_of (S.meaning source.now)) (map Count all_counted) }
{
    Counted::ALL
        .iter()
        .find_map(|counted| count_fault(source, *counted))
}

fn dimension_over(dimension: u32) -> bool
    ensures { result ≡ dimension_over dimension }
{
    dimension == 0 || dimension > limits::DIMENSION
}

fn category_fault<S: Source>(source: &S, category: u32) -> Option<Fault>
    ensures { result ≡ fault_of (S.meaning source.now) (Category category) }
{
    let over = source.dimension(category).is_some_and(dimension_over);
    fault_from(Thing::Category(category), over, false, false)
}

fn start_fault<S: Source>(source: &S) -> Option<Fault>
    ensures { result ≡ fault_of (S.meaning source.now) Start }
{
    let dimension = source.dimension(source.start());
    let unnamed = dimension.is_none();
    let unfit = dimension.is_some_and(|d| d != 1);
    fault_from(Thing::Start, false, unnamed, unfit)
}

// The categories, the functions and the places are gone through by one `find_map` each: a function for all three would be
// that `find_map` again.
fn categories_fault<S: Source>(source: &S) -> Option<Fault>
    ensures { result ≡ first_of (fault_of (S.meaning source.now)) (first_things Category (length (S.meaning source.now).dimensions)) }
{
    (0..source.categories()).find_map(|c| category_fault(source, c))
}

fn functions_fault<S: Source>(source: &S) -> Option<Fault>
    ensures { result ≡ first_of (fault_of (S.meaning source.now)) (first_things Function (length (S.meaning source.now).functions)) }
{
    (0..source.functions()).find_map(|f| function_fault(source, f))
}

fn places_fault<S: Source>(source: &S) -> Option<Fault>
    requires { FunctionsWithin (S.meaning source.now) }
    ensures { result ≡ first_of (fault_of (S.meaning source.now)) (first_things Place (length (S.meaning source.now).places)) }
{
    (0..source.places()).find_map(|p| place_fault(source, p))
}

// The first fault of the source in the order: counts, categories, start, functions, places, each ascending, and at one single
// thing a limit before a name before a fit. There is none just where the grammar is sound.
pub fn first_fault<S: Source>(source: &S) -> Option<Fault>
    ensures { FirstFault (S.meaning source.now) result }
{
    counts_fault(source)
        .or_else(|| categories_fault(source))
        .or_else(|| start_fault(source))
        .or_else(|| functions_fault(source))
        .or_else(|| places_fault(source))
}
