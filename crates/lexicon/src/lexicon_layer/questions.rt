// Adding entries, and the answers of the lexicon layer.
ghost use Rattle.std.specs.Prelude.{◌≡◌, ◌≤◌, [], length, MatchResult};
ghost use Rattle.grammar.specs.Grammar.{and_then, from_one};
ghost use Rattle.table.specs.Listed.{Refused};
ghost use Rattle.lexicon.specs.Lexicon.{Added, added_at, entries_of, kept_head, lexicon_meaning, word_function};

use super::{Entry, Lexicon};
use arrayvec::ArrayVec;
use grammar::{Place, Source, Symbol};
use table::LayerRefusal;

impl<S: Source> Lexicon<S> {
    // The layer over a source, with no entry.
    pub fn over(source: S) -> Self
        ensures { (result.source ≡ source) × (entries_of result ≡ []) }
    {
        Lexicon {
            source,
            entries: ArrayVec::new(),
        }
    }

    // Adds an entry after those in use. A 65th is refused, and the layer stays as it was.
    pub fn add(&mut self, category: u32, token: u32) -> Result<(), LayerRefusal>
        ensures { MatchResult result (λ _. Added S.Source.meaning (record { category = category; token = token }) self.old self.new) (λ e. (length (entries_of self.old) ≡ 64) × Refused self.old self.new e) }
    {
        self.entries
            .try_push(Entry { category, token })
            .map_err(|_| LayerRefusal::NoRoom)
    }
}

impl<S> Lexicon<S> {
    // The source below.
    pub fn into_source(self) -> S
        ensures { result ≡ self.source }
    {
        let Lexicon { source, entries: _ } = self;
        source
    }

    // The entry at `number` of a list of `below` other things and then the entries.
    fn entry_after(&self, below: u32, number: u32) -> Option<Entry>
        ensures { result ≡ added_at below (entries_of self.now) number }
    {
        // 4,294,967,295 names nothing: lists stop before it.
        if number == u32::MAX {
            return None;
        }
        let index = number.checked_sub(below)?;
        self.entries.get(index as usize).copied()
    }

    // How many entries were added.
    fn count(&self) -> u32
        ensures { result ≡ length (entries_of self.now) }
    {
        self.entries.len() as u32
    }
}

// Each entry adds, after all below, a function that is its token and a place that uses that function. (What only passes a question on is
// an answer that the trait asks for. Where an entry answers or the source below, there is a match: `map_or_else` would put each answer into
// a closure, and say no more.)
impl<S: Source> Source for Lexicon<S> {
    ghost meaning = { lexicon_meaning S.Source.meaning };

    fn tokens(&self) -> u32 {
        self.source.tokens()
    }

    fn start(&self) -> u32 {
        self.source.start()
    }

    fn categories(&self) -> u32 {
        self.source.categories()
    }

    fn functions(&self) -> u32 {
        self.source.functions().saturating_add(self.count())
    }

    fn places(&self) -> u32 {
        self.source.places().saturating_add(self.count())
    }

    fn dimension(&self, category: u32) -> Option<u32> {
        self.source.dimension(category)
    }

    fn arity(&self, function: u32) -> Option<u32> {
        match self.entry_after(self.source.functions(), function) {
            Some(_) => Some(0),
            None => self.source.arity(function),
        }
    }

    fn constituents(&self, function: u32) -> Option<u32> {
        match self.entry_after(self.source.functions(), function) {
            Some(_) => Some(1),
            None => self.source.constituents(function),
        }
    }

    fn symbol(&self, function: u32, constituent: u32, index: u32) -> Option<Symbol> {
        match self.entry_after(self.source.functions(), function) {
            Some(entry) => word_symbol(entry, constituent, index),
            None => self.source.symbol(function, constituent, index),
        }
    }

    fn place(&self, place: u32) -> Option<Place> {
        let functions = self.source.functions();
        let places = self.source.places();
        match self.entry_after(places, place) {
            Some(entry) => Some(Place {
                result: entry.category,
                function: functions.saturating_add(place - places),
            }),
            None => self
                .source
                .place(place)
                .map(|below| kept_place(below, functions)),
        }
    }

    fn argument(&self, place: u32, index: u32) -> Option<u32> {
        match self.entry_after(self.source.places(), place) {
            Some(_) => None,
            None => self.source.argument(place, index),
        }
    }
}

// The symbol at these numbers of the function of an entry.
fn word_symbol(entry: Entry, constituent: u32, index: u32) -> Option<Symbol>
    ensures { result ≡ and_then (from_one (word_function entry).constituents constituent) (λ s. from_one s index) }
{
    // Numbers from 1: there is one constituent, of one symbol.
    (constituent == 1 && index == 1).then_some(Symbol::Token(entry.token))
}

// A place of the source below, which has so many functions.
fn kept_place(place: Place, functions: u32) -> Place
    ensures { result ≡ kept_head functions place }
{
    if place.function < functions {
        place
    } else {
        // A number that names no function below must name no word either: it becomes 4,294,967,295, which names nothing, as `kept_number`
        // has it.
        Place {
            function: u32::MAX,
            ..place
        }
    }
}
