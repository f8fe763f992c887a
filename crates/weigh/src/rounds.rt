// A round: the value of each phrase anew, from the values of the round before. `ReadyCells` and `ReadyToWeigh` are premises and no
// ghost fields, as `Stands` is (closing/src/charted.rt); `linked` is what the source's own answers rest on; `TwoRows` is about the
// working values, which are lent and written to.
ghost use Rattle.std.specs.Prelude.{◌+◌, ◌-◌, ◌<◌, ◌≤◌, length};
ghost use Rattle.cells.specs.Facts.{fact_of};
ghost use Rattle.chart.specs.Sums.{made_rules};
ghost use Rattle.weigh.specs.Listed.{one_fact, facts_in};
ghost use Rattle.weigh.specs.Weighed.{TwoRows, StandsIn, ReadyToWeigh, ReadyCells, RulesAdded, LiveAdded, BareAdded, Filled, Copied, Rounded};

use crate::table::Weighing;
use algebra::Algebra;
use cells::Cell;
use closing::made_in;
use steps::{LiveSource, bare_rule};

// Writes zero from value `from` on and before value `to`.
pub(crate) fn clear<V: Algebra>(work: &mut [u32], from: usize, to: usize)
    requires { (from ≤ to) × (to ≤ length work.old) }
    ensures { Filled from to (V.writes V.nought) work.old work.new }
{
    work[from..to].fill(V::zero().write());
}

// Copies the second row of `width` values to the first.
fn copy_down(work: &mut [u32], width: usize)
    requires { width + width ≤ length work.old }
    ensures { Copied width work.old work.new }
{
    work.copy_within(width..width + width, 0);
}

impl<S> Weighing<'_, S> {
    // Adds the made rule in a cell, if it holds one.
    fn add_made_in<V: Algebra>(&self, work: &mut [u32], cell: Cell)
        requires ready { ReadyCells self.now.chart.now.cells.now self.now.table self.now.weights.now }
        requires rows { TwoRows self.now.table work.old }
        requires there { StandsIn self.now.chart.now.cells.now self.now.table cell }
        ensures { RulesAdded V.nought V.plus V.times V.reads self.now.chart.now.cells.now self.now.table self.now.weights.now work.old work.new (made_rules (one_fact (fact_of cell.row))) }
    {
        // Nothing to add; there is no value to pass on.
        let (Some(rule), Some(number)) = (made_in(cell.row), cell.wait.left()) else {
            return;
        };
        self.add_rule::<V>(work, rule, self.table.categories + number);
    }

    // Adds the made rules.
    fn add_made<V: Algebra>(&self, work: &mut [u32])
        requires ready { ReadyCells self.now.chart.now.cells.now self.now.table self.now.weights.now }
        requires rows { TwoRows self.now.table work.old }
        ensures { RulesAdded V.nought V.plus V.times V.reads self.now.chart.now.cells.now self.now.table self.now.weights.now work.old work.new (made_rules (facts_in self.now.chart.now.cells.now self.now.table.base (self.now.table.end - self.now.table.base))) }
    {
        for cell in &self.chart.cells[self.table.base..self.table.end] {
            self.add_made_in::<V>(work, *cell);
        }
    }
}

impl<S: LiveSource> Weighing<'_, S> {
    // Adds the bare rules of a category.
    fn add_live<V: Algebra>(&self, work: &mut [u32], category: u32)
        requires ready { ReadyToWeigh (S.Source.meaning self.now.chart.now.source.now) self.now }
        requires linked { S.linked self.now.chart.now.source.now }
        requires rows { TwoRows self.now.table work.old }
        requires category { category < self.now.table.categories }
        ensures { LiveAdded V.nought V.plus V.times V.reads (S.Source.meaning self.now.chart.now.source.now) self.now.chart.now.cells.now self.now.table self.now.weights.now work.old work.new category }
    {
        let mut place = self.chart.source.first_live(category);
        while let Some(p) = place {
            // Nothing more to add, likewise.
            let Some(rule) = bare_rule(self.chart.source, p) else {
                return;
            };
            self.add_rule::<V>(work, rule, category as usize);
            place = self.chart.source.next_live(p);
        }
    }

    // Adds the bare rules.
    fn add_bare<V: Algebra>(&self, work: &mut [u32])
        requires ready { ReadyToWeigh (S.Source.meaning self.now.chart.now.source.now) self.now }
        requires linked { S.linked self.now.chart.now.source.now }
        requires rows { TwoRows self.now.table work.old }
        ensures { BareAdded V.nought V.plus V.times V.reads (S.Source.meaning self.now.chart.now.source.now) self.now.chart.now.cells.now self.now.table self.now.weights.now work.old work.new }
    {
        // By number: a source is asked about a category by its number.
        for c in 0..self.chart.source.categories() {
            self.add_live::<V>(work, c);
        }
    }

    // One round: from the values of the round before, in the first row, to the next.
    pub(crate) fn round<V: Algebra>(&self, work: &mut [u32])
        requires ready { ReadyToWeigh (S.Source.meaning self.now.chart.now.source.now) self.now }
        requires linked { S.linked self.now.chart.now.source.now }
        requires rows { TwoRows self.now.table work.old }
        ensures { Rounded V.nought V.plus V.times V.reads (S.Source.meaning self.now.chart.now.source.now) self.now.chart.now.cells.now self.now.table self.now.weights.now work.old work.new }
    {
        let width = self.table.categories + self.table.phrases;
        clear::<V>(work, width, width + width);
        self.add_bare::<V>(work);
        self.add_made::<V>(work);
        copy_down(work, width);
    }
}
