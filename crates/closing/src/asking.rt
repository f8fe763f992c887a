// Questions to the grammar that stands in the cells before cell `base`. Each makes its own source over them, since the cells are lent
// and written to between two questions. The rows are not split off (`split_at_mut`): links are positions in the whole slice, and 0 is
// no cell, which holds only while the log begins behind the rows.
ghost use Rattle.std.specs.Prelude.{◌≡◌, ℕ, suc, ◌<◌, ◌≤◌, length, take};
ghost use Rattle.faults.specs.Sound.{Sound};
ghost use Rattle.chart.specs.Chart.{bare};
ghost use Rattle.cells.specs.declared.Item.{Item as ItemOf};
ghost use Rattle.cells.specs.declared.Rule.{Rule as RuleOf};
ghost use Rattle.cells.specs.declared.Fact.TheVariants.{Item, Made};
ghost use Rattle.cells.specs.declared.Waiting.TheVariants.{Idle};
ghost use Rattle.cells.specs.Facts.{phrase_of};
ghost use Rattle.rows.specs.Meaning.{cells_of, rows_meaning};
ghost use Rattle.rows.specs.Links.{Linked};
ghost use Rattle.steps.specs.Bare.{BareAt};
ghost use Rattle.steps.specs.Live.{FirstLive, LiveOf};
ghost use Rattle.steps.specs.Nexts.{NextOf};
ghost use Rattle.steps.specs.Waits.{Told};
ghost use Rattle.closing.specs.Ready.{grammar_in};
ghost use Rattle.closing.specs.Runs.{grammar_of, Spread};

use crate::Run;
use cells::{Cell, Fact, Phrase, Rule, Waiting};
use rows::{Counts, Rows};
use steps::LiveSource;
use steps::next::Next;

// The cells before `base` as a source.
pub fn rows_in(cells: &[Cell], base: usize, counts: Counts) -> Rows<'_>
    requires { base ≤ length cells.now }
    ensures lent { cells_of result ≡ take base cells.now }
    ensures counts { result.counts ≡ counts }
    ensures meant { rows_meaning (cells_of result) result.counts ≡ grammar_in cells.now base counts }
    ensures links { Linked (take base cells.now) counts → Linked (cells_of result) result.counts }
{
    Rows::new(&cells[..base], counts)
}

impl Run<'_> {
    // What the fact waits for: an item as it is told, a made rule for nothing.
    pub(crate) fn wait_for(&self, cells: &[Cell], fact: Fact) -> Waiting
        requires range { Spread self.now cells.now }
        requires sound { Sound (grammar_of self.now cells.now) }
        ensures item { (x : ItemOf) → fact ≡ Item x → Told (grammar_of self.now cells.now) x result }
        ensures made { (r : RuleOf) → fact ≡ Made r → result ≡ Idle }
    {
        let source = rows_in(cells, self.room.base, self.counts);
        match fact {
            Fact::Item(x) => steps::wait_of(&source, x),
            Fact::Made(_) => Waiting::Idle,
        }
    }

    // What an item does next with the tokens.
    pub(crate) fn next_for(&self, cells: &[Cell], x: cells::Item) -> Next
        requires range { Spread self.now cells.now }
        requires sound { Sound (grammar_of self.now cells.now) }
        requires tokens { length self.now.tokens.now ≤ 200 }
        ensures { NextOf (grammar_of self.now cells.now) self.now.tokens.now x result }
    {
        let source = rows_in(cells, self.room.base, self.counts);
        steps::next_of(&source, self.tokens, x)
    }

    // The first live place of a category.
    pub(crate) fn first_live_for(&self, cells: &[Cell], category: u32) -> Option<u32>
        requires range { Spread self.now cells.now }
        requires linked { Linked (take self.now.room.base cells.now) self.now.counts }
        ensures { FirstLive (grammar_of self.now cells.now) category 0 result }
    {
        let source = rows_in(cells, self.room.base, self.counts);
        source.first_live(category)
    }

    // The next live place after a live one, of the same category.
    pub(crate) fn next_live_for(&self, cells: &[Cell], place: u32) -> Option<u32>
        requires range { Spread self.now cells.now }
        requires linked { Linked (take self.now.room.base cells.now) self.now.counts }
        ensures { (c : ℕ) → LiveOf (grammar_of self.now cells.now) c place → FirstLive (grammar_of self.now cells.now) c (suc place) result }
    {
        let source = rows_in(cells, self.room.base, self.counts);
        source.next_live(place)
    }

    // The bare rule of a place, if it is filled.
    pub(crate) fn bare_rule_for(&self, cells: &[Cell], place: u32) -> Option<Rule>
        requires range { Spread self.now cells.now }
        requires sound { Sound (grammar_of self.now cells.now) }
        ensures { BareAt (grammar_of self.now cells.now) place result }
    {
        let source = rows_in(cells, self.room.base, self.counts);
        steps::bare_rule(&source, place)
    }

    // The bare phrase of a category.
    pub fn bare_phrase_for(&self, cells: &[Cell], category: u32) -> Phrase
        requires range { Spread self.now cells.now }
        requires sound { Sound (grammar_of self.now cells.now) }
        ensures { phrase_of result ≡ bare (grammar_of self.now cells.now) category }
    {
        let source = rows_in(cells, self.room.base, self.counts);
        steps::bare_phrase(&source, category)
    }
}
