// A grammar as plain records in lent slices.
ghost use Rattle.std.specs.Prelude.{◌≡◌};
ghost use Rattle.std.specs.List.{slice_get};
ghost use Rattle.std.specs.Option.{option_flatten};
ghost use Rattle.table.specs.Rows.{part, stopped};
ghost use Rattle.table.specs.Table.{production_head, table_meaning};

use crate::rows::{part_of, row_at, row_from_one, stopped_count, stopped_rows};
use grammar::{Place, Source, Symbol};

// A function, and the part of the constituent rows that is its own. Whoever fills a table writes `first` and `count` as plain
// fields of each row, so they are no struct of their own: nested, each literal of a table would be longer and say no more.
#[derive(Clone, Copy, Debug, PartialEq, Eq)]
pub struct FunctionRow {
    pub arity: u32,
    pub first: u32,
    pub count: u32,
}

// A constituent: the part of the symbols that is its own.
#[derive(Clone, Copy, Debug, PartialEq, Eq)]
pub struct ConstituentRow {
    pub first: u32,
    pub count: u32,
}

// A production, and the part of the arguments that is its own.
#[derive(Clone, Copy, Debug, PartialEq, Eq)]
pub struct PlaceRow {
    pub result: u32,
    pub function: u32,
    pub first: u32,
    pub count: u32,
}

// The result and the function of the production.
impl From<PlaceRow> for Place {
    ghost from_gives = { λ row place. place ≡ production_head row };

    fn from(row: PlaceRow) -> Place {
        Place {
            result: row.result,
            function: row.function,
        }
    }
}

// The table: a part of rows is named by the number of its first row and by their count. A count that runs past its slice
// stops there, and a first past the end has no rows. Each list stops at 4,294,967,295 entries.
#[derive(Clone, Copy)]
pub struct Table<'a> {
    pub tokens: u32,
    pub start: u32,
    pub dimensions: &'a [u32],
    pub functions: &'a [FunctionRow],
    pub constituents: &'a [ConstituentRow],
    pub symbols: &'a [Symbol],
    pub places: &'a [Option<PlaceRow>],
    pub arguments: &'a [u32],
}

impl Table<'_> {
    fn function_row(&self, function: u32) -> Option<FunctionRow>
        ensures { result ≡ slice_get (stopped self.now.functions.now) function }
    {
        row_at(stopped_rows(self.functions), function)
    }

    // The rows of a function's constituents.
    fn constituent_rows(&self, row: FunctionRow) -> &[ConstituentRow]
        ensures { result.now ≡ part self.now.constituents.now row.first row.count }
    {
        part_of(self.constituents, row.first, row.count)
    }

    // The symbols of a constituent.
    fn symbols_of(&self, row: ConstituentRow) -> &[Symbol]
        ensures { result.now ≡ part self.now.symbols.now row.first row.count }
    {
        part_of(self.symbols, row.first, row.count)
    }

    // The production at a place, if there is one.
    fn place_row(&self, place: u32) -> Option<PlaceRow>
        ensures { result ≡ option_flatten (slice_get (stopped self.now.places.now) place) }
    {
        row_at(stopped_rows(self.places), place).flatten()
    }
}

// The table means exactly what its rows spell.
impl Source for Table<'_> {
    ghost meaning = { table_meaning };

    fn tokens(&self) -> u32 {
        self.tokens
    }

    fn start(&self) -> u32 {
        self.start
    }

    fn categories(&self) -> u32 {
        stopped_count(self.dimensions)
    }

    fn functions(&self) -> u32 {
        stopped_count(self.functions)
    }

    fn places(&self) -> u32 {
        stopped_count(self.places)
    }

    fn dimension(&self, category: u32) -> Option<u32> {
        row_at(stopped_rows(self.dimensions), category)
    }

    fn arity(&self, function: u32) -> Option<u32> {
        let row = self.function_row(function)?;
        Some(row.arity)
    }

    fn constituents(&self, function: u32) -> Option<u32> {
        let row = self.function_row(function)?;
        Some(self.constituent_rows(row).len() as u32)
    }

    fn symbol(&self, function: u32, constituent: u32, index: u32) -> Option<Symbol> {
        let row = self.function_row(function)?;
        let part = row_from_one(self.constituent_rows(row), constituent)?;
        row_from_one(self.symbols_of(part), index)
    }

    fn place(&self, place: u32) -> Option<Place> {
        self.place_row(place).map(Place::from)
    }

    fn argument(&self, place: u32, index: u32) -> Option<u32> {
        let row = self.place_row(place)?;
        row_from_one(part_of(self.arguments, row.first, row.count), index)
    }
}
