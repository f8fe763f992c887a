// Whether one of the first symbols or arguments passes a test: they are asked for up to the first that passes, or that is not there,
// since lists have no holes. `IsAlwaysCallable` is required of each test, since what is handed in is
// called. The inner closures call `test` by name: handed on as `&test` it is proved too, but the closure around it then needs a clause of
// its own, `requires { F.IsAlwaysCallable test }`.
ghost use Rattle.std.specs.Prelude.{◌+◌, ◌^◌, ◌<◌, take};
ghost use Rattle.faults.specs.Limits.{most_constituents, most_symbols};
ghost use Rattle.faults.specs.Parts.{constituents_of, symbols_of, arguments_of};
ghost use Rattle.faults.specs.Tests.{SomePasses};

use crate::limits;
use grammar::{Source, Symbol};

// Whether one of the first symbols of a constituent passes.
fn constituent_has<S: Source, F: Fn(Symbol) -> bool>(
    source: &S,
    function: u32,
    constituent: u32,
    test: &F,
) -> bool
    requires { F.IsAlwaysCallable test.now }
    ensures { SomePasses (F.post test.now) (take most_symbols (symbols_of (S.meaning source.now) function constituent)) result }
{
    (0..limits::SYMBOLS)
        .find(
            |i|
                requires callable { F.IsAlwaysCallable test.now }
                requires small { i.now + 1 < 2 ^ 32 }
            {
                source
                    .symbol(function, constituent, *i + 1)
                    .is_none_or(|symbol| test(symbol))
            },
        )
        .is_some_and(|i| source.symbol(function, constituent, i + 1).is_some())
}

// Whether one of the first symbols passes, in one of the first constituents of a function.
pub(crate) fn any_symbol<S: Source, F: Fn(Symbol) -> bool>(
    source: &S,
    function: u32,
    test: F,
) -> bool
    requires { F.IsAlwaysCallable test }
    ensures { SomePasses (λ α. SomePasses (F.post test) (take most_symbols α)) (take most_constituents (constituents_of (S.meaning source.now) function)) result }
{
    (1..=limits::CONSTITUENTS).any(|l| constituent_has(source, function, l, &test))
}

// Whether one of the first `most` arguments of a place passes.
pub fn any_argument<S: Source, F: Fn(u32) -> bool>(
    source: &S,
    place: u32,
    most: u32,
    test: F,
) -> bool
    requires { F.IsAlwaysCallable test }
    ensures { SomePasses (F.post test) (take most (arguments_of (S.meaning source.now) place)) result }
{
    (0..most)
        .find(
            |i|
                requires callable { F.IsAlwaysCallable test }
                requires small { i.now + 1 < 2 ^ 32 }
            {
                source
                    .argument(place, *i + 1)
                    .is_none_or(|category| test(category))
            },
        )
        .is_some_and(|i| source.argument(place, i + 1).is_some())
}
