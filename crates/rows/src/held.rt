// Cells that hold a grammar.
ghost use Rattle.std.specs.Prelude.{◌≡◌, ◌+◌};
ghost use Rattle.std.specs.List.{slice_get};
ghost use Rattle.std.specs.Option.{option_map};
ghost use Rattle.grammar.specs.Grammar.{from_one};
ghost use Rattle.rows.specs.Sorts.{function_in};
ghost use Rattle.rows.specs.Meaning.{cells_of, row_at, rows_in, function_part, rows_meaning};
ghost use Rattle.rows.specs.Links.{place_row_at};

use crate::counts::Counts;
use crate::sorts::{
    FunctionRow, Part, PlaceRow, argument_in, constituent_in, dimension_in, function_in, place_in,
    symbol_in,
};
use cells::{Cell, Row, ZERO};
use grammar::{Place, Source, Symbol};

// The cells of a grammar with these counts.
#[derive(Clone, Copy)]
pub struct Rows<'a> {
    pub rows: &'a [Cell],
    pub counts: Counts,
}

impl<'a> Rows<'a> {
    pub fn new(rows: &'a [Cell], counts: Counts) -> Rows<'a>
        ensures cells { cells_of result ≡ rows.now }
        ensures counts { result.counts ≡ counts }
    {
        Rows { rows, counts }
    }
}

impl Rows<'_> {
    // The row of the cell that comes `i` after the first: nothing past the end.
    fn row_after(&self, first: usize, i: u32) -> Row
        ensures { result ≡ row_at (cells_of self.now) (first + i) }
    {
        let cell = first.saturating_add(i as usize);
        self.rows.get(cell).copied().unwrap_or(ZERO).row
    }

    // Row `i` of a part, counted from 0.
    pub(crate) fn row_in(&self, part: Part, i: u32) -> Option<Row>
        ensures { result ≡ slice_get (rows_in (cells_of self.now) part) i }
    {
        (i < part.count).then_some(self.row_after(part.first, i))
    }

    // Row `i` of a part, counted from 1.
    fn row_from_one(&self, part: Part, i: u32) -> Option<Row>
        ensures { result ≡ from_one (rows_in (cells_of self.now) part) i }
    {
        self.row_in(part, i.checked_sub(1)?)
    }

    fn function_row(&self, function: u32) -> Option<FunctionRow>
        ensures { result ≡ option_map function_in (slice_get (rows_in (cells_of self.now) (function_part self.now.counts)) function) }
    {
        let row = self.row_in(self.counts.function_part(), function)?;
        Some(function_in(row))
    }

    // The row of a place, if it is filled.
    pub(crate) fn place_row(&self, place: u32) -> Option<PlaceRow>
        ensures { result ≡ place_row_at (cells_of self.now) self.now.counts place }
    {
        place_in(self.row_in(self.counts.place_part(), place)?)
    }
}

// The cells mean exactly what their rows say.
impl Source for Rows<'_> {
    ghost meaning = { λ s. rows_meaning (cells_of s) s.counts };

    fn tokens(&self) -> u32 {
        self.counts.tokens
    }

    fn start(&self) -> u32 {
        self.counts.start
    }

    fn categories(&self) -> u32 {
        self.counts.categories
    }

    fn functions(&self) -> u32 {
        self.counts.functions
    }

    fn places(&self) -> u32 {
        self.counts.places
    }

    fn dimension(&self, category: u32) -> Option<u32> {
        let row = self.row_in(self.counts.category_part(), category)?;
        Some(dimension_in(row))
    }

    fn arity(&self, function: u32) -> Option<u32> {
        let row = self.function_row(function)?;
        Some(row.arity)
    }

    fn constituents(&self, function: u32) -> Option<u32> {
        let row = self.function_row(function)?;
        Some(row.constituents.count)
    }

    fn symbol(&self, function: u32, constituent: u32, index: u32) -> Option<Symbol> {
        let row = self.function_row(function)?;
        let part = self.row_from_one(row.constituents, constituent)?;
        let symbol = self.row_from_one(constituent_in(part), index)?;
        Some(symbol_in(symbol))
    }

    fn place(&self, place: u32) -> Option<Place> {
        self.place_row(place).map(Place::from)
    }

    fn argument(&self, place: u32, index: u32) -> Option<u32> {
        let row = self.place_row(place)?;
        let category = self.row_from_one(row.arguments, index)?;
        Some(argument_in(category))
    }
}
