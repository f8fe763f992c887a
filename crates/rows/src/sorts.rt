// What a row says, sort by sort. A row of another sort says nothing, which reads as 0, as no rows or as an empty place: no Options, since
// the meaning of cells (specs/Sorts) is defined so for whatever a cell holds.
ghost use Rattle.std.specs.Prelude.{◌≡◌};
ghost use Rattle.rows.specs.Sorts.{dimension_in, first_live_in, function_in, constituent_in, symbol_in, place_in, production_head, argument_in};

use cells::Row;
use grammar::{Place, Symbol};

// Rows that stand one after another: the cell of the first, and how many.
#[derive(Clone, Copy, Default)]
pub struct Part {
    pub first: usize,
    pub count: u32,
}

#[derive(Clone, Copy, Default)]
pub struct FunctionRow {
    pub arity: u32,
    pub constituents: Part,
}

// A place that holds a production, and the cell of the next live place with the same result, 0 where there is none.
#[derive(Clone, Copy)]
pub struct PlaceRow {
    pub result: u32,
    pub function: u32,
    pub arguments: Part,
    pub next: usize,
}

// The result and the function of the production.
impl From<PlaceRow> for Place {
    ghost from_gives = { λ row place. place ≡ production_head row };

    fn from(row: PlaceRow) -> Place {
        Place {
            result: row.result,
            function: row.function,
        }
    }
}

pub(crate) fn dimension_in(row: Row) -> u32
    ensures { result ≡ dimension_in row }
{
    match row {
        Row::Category(dimension, ..) => dimension,
        _ => 0,
    }
}

// The cell of the first live place of a category.
pub(crate) fn first_live_in(row: Row) -> usize
    ensures { result ≡ first_live_in row }
{
    match row {
        Row::Category(.., place) => place,
        _ => 0,
    }
}

pub(crate) fn function_in(row: Row) -> FunctionRow
    ensures { result ≡ function_in row }
{
    match row {
        Row::Function(arity, first, count) => {
            FunctionRow {
                arity,
                constituents: Part { first, count },
            }
        }
        _ => FunctionRow::default(),
    }
}

// The symbols of a constituent.
pub(crate) fn constituent_in(row: Row) -> Part
    ensures { result ≡ constituent_in row }
{
    match row {
        Row::Constituent(first, count) => Part { first, count },
        _ => Part::default(),
    }
}

pub(crate) fn symbol_in(row: Row) -> Symbol
    ensures { result ≡ symbol_in row }
{
    match row {
        Row::Symbol(symbol) => symbol,
        _ => Symbol::Token(0),
    }
}

pub(crate) fn place_in(row: Row) -> Option<PlaceRow>
    ensures { result ≡ place_in row }
{
    match row {
        Row::Place(result, function, first, count, next) => {
            Some(PlaceRow {
                result,
                function,
                arguments: Part { first, count },
                next,
            })
        }
        _ => None,
    }
}

pub(crate) fn argument_in(row: Row) -> u32
    ensures { result ≡ argument_in row }
{
    match row {
        Row::Argument(category) => category,
        _ => 0,
    }
}
