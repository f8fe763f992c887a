// A packed file that was read.
ghost use Rattle.std.specs.Prelude.{◌≡◌, length, nat_eq, IfOk};
ghost use Rattle.std.proofs.Props.{props};
ghost use Rattle.std.specs.List.{filter};
ghost use Rattle.std.specs.Option.{option_map};
ghost use Rattle.grammar.specs.Grammar.{production_at};
ghost use Rattle.records.specs.declared.kinds.Kind.TheVariants.{Category, Function};
ghost use Rattle.records.specs.Kinds.{fault_listed, kind_number};
ghost use Rattle.records.specs.Meaning.{production_of};
ghost use Rattle.records.specs.Records.{viewed, reading};
ghost use Rattle.std.specs.Result.{result_map_both};
ghost use Rattle.walk.specs.declared.seek.Group.TheVariants.{Only, Places};
ghost use Rattle.walk.specs.Catalogue.{Catalogued};

use grammar::{Place, Source, Symbol};
use records::{Kind, ReadFault, Record, number_at, symbol_at};
use walk::{
    Catalogue, Group, count, count_constituents, find_constituent, head_number, read_records,
};

// A packed file whose bytes spell a grammar. Only reading makes one.
#[derive(Clone, Copy)]
pub struct Packed<'a> {
    bytes: &'a [u8],
    categories: Catalogue,
    functions: Catalogue,
    places: Catalogue,
    ghost categories_listed: { Catalogued (Only Category) bytes.now categories } by { Prim.hlevel props },
    ghost functions_listed: { Catalogued (Only Function) bytes.now functions } by { Prim.hlevel props },
    ghost places_listed: { Catalogued Places bytes.now places } by { Prim.hlevel props },
}

impl<'a> Packed<'a> {
    ghost use Rattle.packed.specs.File.{bytes_of, entries_of, file_meaning, Spells};

    // Reads a whole file: the file as a source, or the fault of its first bad record.
    pub fn read(bytes: &'a [u8]) -> Result<Packed<'a>, ReadFault>
        ensures answer { result_map_both entries_of fault_listed result ≡ reading bytes.now }
        ensures row { Spells bytes.now result }
        ensures bytes { IfOk result (λ p. bytes_of p ≡ bytes.now) }
    {
        read_records(bytes)?;
        Ok(Packed {
            bytes,
            categories: Catalogue::of(bytes, Group::Only(Kind::Category)),
            functions: Catalogue::of(bytes, Group::Only(Kind::Function)),
            places: Catalogue::of(bytes, Group::Places),
        })
    }

    // How many bytes the file has.
    pub fn size(&self) -> usize
        ensures { result ≡ length (bytes_of self.now) }
    {
        self.bytes.len()
    }

    // How many records of a kind the file has.
    pub fn count_of(&self, kind: Kind) -> usize
        ensures { result ≡ length (filter (λ e. nat_eq (kind_number e.kind) (kind_number kind)) (entries_of self.now)) }
    {
        count(self.bytes, Group::Only(kind))
    }

    // The record of a place, if it is filled.
    fn filled(&self, place: u32) -> Option<Record<'a>>
        ensures { option_map (λ r. production_of (viewed r)) result ≡ production_at (file_meaning self.now) place }
    {
        self.places
            .find(self.bytes, Group::Places, place)
            .filter(|record| record.kind == Kind::Filled)
    }
}

// A file means the grammar that its records spell.
impl Source for Packed<'_> {
    ghost use Rattle.packed.specs.File.{file_meaning};

    ghost meaning = { file_meaning };

    fn tokens(&self) -> u32 {
        head_number(self.bytes, 0)
    }

    fn start(&self) -> u32 {
        head_number(self.bytes, 1)
    }

    fn categories(&self) -> u32 {
        self.categories.count_up_to_most()
    }

    fn functions(&self) -> u32 {
        self.functions.count_up_to_most()
    }

    fn places(&self) -> u32 {
        self.places.count_up_to_most()
    }

    fn dimension(&self, category: u32) -> Option<u32> {
        self.categories
            .first_number(self.bytes, Group::Only(Kind::Category), category)
    }

    fn arity(&self, function: u32) -> Option<u32> {
        self.functions
            .first_number(self.bytes, Group::Only(Kind::Function), function)
    }

    fn constituents(&self, function: u32) -> Option<u32> {
        let record = self
            .functions
            .find(self.bytes, Group::Only(Kind::Function), function)?;
        Some(count_constituents(self.bytes, record.end()))
    }

    fn symbol(&self, function: u32, constituent: u32, index: u32) -> Option<Symbol> {
        let constituent = constituent.checked_sub(1)?;
        let index = index.checked_sub(1)?;
        let record = self
            .functions
            .find(self.bytes, Group::Only(Kind::Function), function)?;
        let symbols = find_constituent(self.bytes, record.end(), constituent)?;
        symbol_at(symbols.body, index as usize)
    }

    fn place(&self, place: u32) -> Option<Place> {
        let record = self.filled(place)?;
        // No `From`: its one use, and a record of another kind is no place. A number is 0 where the body has no such number, as `number_of`
        // has it: a record that fits its kind has it.
        Some(Place {
            result: number_at(record.body, 0).unwrap_or(0),
            function: number_at(record.body, 1).unwrap_or(0),
        })
    }

    fn argument(&self, place: u32, index: u32) -> Option<u32> {
        let index = index.checked_sub(1)?;
        let record = self.filled(place)?;
        number_at(record.body, 2 + index as usize)
    }
}
