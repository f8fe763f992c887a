// A pile of a table and two layers, used through a function that knows only the trait; and tests.
#![tactic(auto)]

ghost use Rattle.std.specs.Prelude.{◌≡◌, Some, Ok};
ghost use Rattle.table.specs.Table.{table_meaning};
ghost use Rattle.sources_tests.specs.Empty.{first_empty, two_places};

use grammar::{Source, Symbol};
use sources::{ConstituentRow, FunctionRow, LayerRefusal, Lexicon, PlaceRow, Strike, Table};

// The first place of any source that holds no production.
pub fn first_empty_place<S: Source>(source: &S) -> Option<u32>
    ensures { result ≡ first_empty 0 (S.Source.meaning source.now).places }
{
    (0..source.places()).find(|place| source.place(*place).is_none())
}

// One category, one function that is the token 0, and two places that use it.
pub fn two_places() -> Table<'static>
    ensures { table_meaning result ≡ two_places }
{
    Table {
        tokens: 2,
        start: 0,
        dimensions: &[1],
        functions: &[FunctionRow {
            arity: 0,
            first: 0,
            count: 1,
        }],
        constituents: &[ConstituentRow { first: 0, count: 1 }],
        symbols: &[Symbol::Token(0)],
        places: &[
            Some(PlaceRow {
                result: 0,
                function: 0,
                first: 0,
                count: 0,
            }),
            Some(PlaceRow {
                result: 0,
                function: 0,
                first: 0,
                count: 0,
            }),
        ],
        arguments: &[],
    }
}

// Of these two places the second is struck, and a word comes after them: place 1 is the first empty one.
pub fn first_empty_of_pile() -> Result<Option<u32>, LayerRefusal>
    ensures { result ≡ Ok (Some 1) }
{
    let mut strike = Strike::over(two_places());
    strike.mark(1)?;
    let mut pile = Lexicon::over(strike);
    pile.add(0, 1)?;
    Ok(first_empty_place(&pile))
}

#[cfg(test)]
mod tests;
