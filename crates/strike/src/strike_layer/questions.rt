// Marking places, and the answers of the strike layer.
ghost use Rattle.std.specs.Prelude.{◌≡◌, ◌≤◌, false, true, MatchOption, MatchResult, slice_index_or};
ghost use Rattle.table.specs.Listed.{Refused};
ghost use Rattle.strike.specs.Strike.{Marked, Unmarked, strike_meaning};

use super::{MARKS, Strike};
use grammar::{Place, Source, Symbol};
use table::LayerRefusal;

impl<S: Source> Strike<S> {
    // The layer over a source, with no place marked: it means what the source means.
    pub fn over(source: S) -> Self
        ensures { Unmarked S.Source.meaning source result }
    {
        Strike {
            source,
            marks: [false; MARKS],
        }
    }

    // Marks a place, which empties it. One above 511 is refused, and the layer stays as it was.
    pub fn mark(&mut self, place: u32) -> Result<(), LayerRefusal>
        ensures { MatchResult result (λ _. Marked S.Source.meaning place self.old self.new) (λ e. (512 ≤ place) × Refused self.old self.new e) }
    {
        // Tested and then written by index: of the marks after a write through `get_mut` a proof knows only how many they are.
        if place as usize >= MARKS {
            return Err(LayerRefusal::NoRoom);
        }
        self.marks[place as usize] = true;
        Ok(())
    }
}

impl<S> Strike<S> {
    // The source below.
    pub fn into_source(self) -> S
        ensures { result ≡ self.source }
    {
        let Strike { source, marks: _ } = self;
        source
    }

    fn is_marked(&self, place: u32) -> bool
        ensures { result ≡ slice_index_or self.now.marks place false }
    {
        self.marks.get(place as usize).copied().unwrap_or(false)
    }

    // The place, if it is not marked: of a marked one nothing is asked below.
    fn unmarked(&self, place: u32) -> Option<u32>
        ensures { MatchOption result (slice_index_or self.now.marks place false ≡ true) (λ p. (p ≡ place) × (slice_index_or self.now.marks place false ≡ false)) }
    {
        (!self.is_marked(place)).then_some(place)
    }
}

// Marked places are empty, and all else is as below. (What only passes a question on is an answer that the trait asks for.)
impl<S: Source> Source for Strike<S> {
    ghost meaning = { strike_meaning S.Source.meaning };

    fn tokens(&self) -> u32 {
        self.source.tokens()
    }

    fn start(&self) -> u32 {
        self.source.start()
    }

    fn categories(&self) -> u32 {
        self.source.categories()
    }

    fn functions(&self) -> u32 {
        self.source.functions()
    }

    fn places(&self) -> u32 {
        self.source.places()
    }

    fn dimension(&self, category: u32) -> Option<u32> {
        self.source.dimension(category)
    }

    fn arity(&self, function: u32) -> Option<u32> {
        self.source.arity(function)
    }

    fn constituents(&self, function: u32) -> Option<u32> {
        self.source.constituents(function)
    }

    fn symbol(&self, function: u32, constituent: u32, index: u32) -> Option<Symbol> {
        self.source.symbol(function, constituent, index)
    }

    fn place(&self, place: u32) -> Option<Place> {
        self.source.place(self.unmarked(place)?)
    }

    fn argument(&self, place: u32, index: u32) -> Option<u32> {
        self.source.argument(self.unmarked(place)?, index)
    }
}
