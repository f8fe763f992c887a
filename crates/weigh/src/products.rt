// The value of a rule: its place's weight times its arguments' values.
ghost use Rattle.std.specs.Prelude.{◌≡◌, ◌^◌, ◌<◌};
ghost use Rattle.weigh.specs.Weighed.{width, all_unread, TwoRows, ReadyPhrase, ReadyRule, Indexed, ArgumentIs, ProductIs, RuleAdded};

use crate::numbers::number_of;
use crate::table::Weighing;
use algebra::Algebra;
use cells::{Phrase, Rule, Short, Span};
use faults::limits;

// Whether nothing is read.
fn all_unread(spans: Short<Span>) -> bool
    ensures { result ≡ all_unread spans }
{
    matches!(
        spans,
        Short::Nil
            | Short::One(Span::Unread)
            | Short::Two(Span::Unread, Span::Unread)
            | Short::Three(Span::Unread, Span::Unread, Span::Unread)
    )
}

impl<S> Weighing<'_, S> {
    // Which value of a row is the phrase's: a bare phrase has its category's, any other that of its number.
    fn index_of(&self, phrase: Phrase) -> usize
        requires ready { ReadyPhrase self.now.chart.now.cells.now self.now.table phrase }
        requires fits { width self.now.table < 2 ^ 64 }
        ensures { Indexed self.now.chart.now.cells.now self.now.table phrase result }
    {
        let table = self.table;
        if all_unread(phrase.spans) {
            return phrase.category as usize;
        }
        // A closure of `map_or` would have to be told that the number is one of the table's.
        match number_of(self.chart.cells, table.base, table.end, phrase, table.end) {
            Some(number) => table.categories + number,
            None => phrase.category as usize,
        }
    }

    // The value of a phrase in the first row.
    fn argument<V: Algebra>(&self, work: &[u32], phrase: Phrase) -> V
        requires ready { ReadyPhrase self.now.chart.now.cells.now self.now.table phrase }
        requires rows { TwoRows self.now.table work.now }
        ensures { ArgumentIs V.reads self.now.chart.now.cells.now self.now.table work.now phrase result }
    {
        V::read(work[self.index_of(phrase)])
    }

    // The value of a rule, from the first row.
    fn product<V: Algebra>(&self, work: &[u32], rule: Rule) -> V
        requires ready { ReadyRule self.now.chart.now.cells.now self.now.table self.now.weights.now rule }
        requires rows { TwoRows self.now.table work.now }
        ensures { ProductIs V.times V.reads self.now.chart.now.cells.now self.now.table self.now.weights.now work.now rule result }
    {
        let mut value = V::read(self.weights[rule.place as usize]);
        // No `Short::fold`: what `argument` asks for is known of this rule's phrases alone.
        for d in 1..=limits::ARGUMENTS {
            if let Some(phrase) = rule.arguments.at(d) {
                value = value.product(self.argument(work, phrase));
            }
        }
        value
    }

    // Adds the value of a rule to the value `index` of the second row.
    pub(crate) fn add_rule<V: Algebra>(&self, work: &mut [u32], rule: Rule, index: usize)
        requires ready { ReadyRule self.now.chart.now.cells.now self.now.table self.now.weights.now rule }
        requires rows { TwoRows self.now.table work.old }
        requires index { index < width self.now.table }
        ensures { RuleAdded V.plus V.times V.reads V.writes self.now.chart.now.cells.now self.now.table self.now.weights.now work.old work.new rule index }
    {
        let value: V = self.product(work, rule);
        let at = self.table.categories + self.table.phrases + index;
        work[at] = V::read(work[at]).sum(value).write();
    }
}
