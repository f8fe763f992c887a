// The sum over the trees of a closed note.
ghost use Rattle.std.specs.Prelude.{◌≡◌, ℕ, ◌+◌, ◌*◌, ◌≤◌, List, length};
ghost use Rattle.faults.specs.Sound.{Sound};
ghost use Rattle.chart.specs.Chart.{Phrase as ChartPhrase};
ghost use Rattle.closing.specs.Charts.{Stands};
ghost use Rattle.weigh.specs.Numbers.{Numbered};
ghost use Rattle.weigh.specs.Weighed.{TwoRows, Ready, ReadyToWeigh, RoundedTo, StartIs, SumIs, Cleared};

use crate::numbers::number_of;
use crate::rounds::clear;
use crate::table::{Table, Weighing};
use algebra::Algebra;
use closing::Chart;
use steps::LiveSource;

impl<S: LiveSource> Weighing<'_, S> {
    // So many rounds.
    fn rounds<V: Algebra>(&self, work: &mut [u32], depth: u32)
        requires ready { ReadyToWeigh (S.Source.meaning self.now.chart.now.source.now) self.now }
        requires linked { S.linked self.now.chart.now.source.now }
        requires rows { TwoRows self.now.table work.old }
        ensures { RoundedTo V.nought V.plus V.times V.reads (S.Source.meaning self.now.chart.now.source.now) self.now.chart.now.cells.now self.now.table self.now.weights.now work.old work.new depth }
    {
        for _ in 0..depth {
            self.round::<V>(work);
        }
    }

    // The value of the start phrase, read as the whole of the tokens, in the first row: zero where no rule makes it.
    fn start_value<V: Algebra>(&self, work: &[u32]) -> V
        requires ready { (x : List ChartPhrase) × Ready (S.Source.meaning self.now.chart.now.source.now) self.now.chart.now.tokens.now self.now.chart.now.cells.now self.now.table x }
        requires tokens { length self.now.chart.now.tokens.now ≤ 200 }
        requires rows { TwoRows self.now.table work.now }
        ensures { (x : List ℕ) → StartIs V.nought V.plus V.times V.reads (S.Source.meaning self.now.chart.now.source.now) self.now.chart.now.tokens.now self.now.chart.now.cells.now self.now.table x work.now result }
    {
        let table = self.table;
        let start = self.chart.start_phrase();
        // A closure of `map_or` would have to be told that the value stands in the row.
        match number_of(self.chart.cells, table.base, table.end, start, table.end) {
            Some(number) => V::read(work[table.categories + number]),
            None => V::zero(),
        }
    }
}

// What is asked of a weighing: how many left sides of made rules are numbered, to what height trees count, and each place's weight.
// The working values are no part of it: they are written.
#[derive(Clone, Copy)]
pub struct Request<'a> {
    pub phrases: usize,
    pub depth: u32,
    pub weights: &'a [u32],
}

// The sum, over the start trees of height at most `depth` whose string the tokens are, of the products of their places' weights. The
// cells hold the whole chart of the tokens, with `phrases` left sides numbered. There is a working value for each category and for
// each of these phrases, twice over; in the end they are zero.
pub fn weigh<V: Algebra, S: LiveSource>(
    chart: &Chart<'_, S>,
    request: &Request<'_>,
    work: &mut [u32],
) -> V
    requires sound { Sound (S.Source.meaning chart.now.source.now) }
    requires linked { S.linked chart.now.source.now }
    requires stands { Stands (S.Source.meaning chart.now.source.now) chart.now }
    requires numbered { (x : List ChartPhrase) × Numbered (S.Source.meaning chart.now.source.now) chart.now.tokens.now chart.now.cells.now chart.now.room.base chart.now.end x × (length x ≡ request.now.phrases) }
    requires weights { length (S.Source.meaning chart.now.source.now).places ≤ length request.now.weights.now }
    requires work { 2 * (length (S.Source.meaning chart.now.source.now).dimensions + request.now.phrases) ≤ length work.old }
    ensures sum { SumIs V.nought V.plus V.times V.reads (S.Source.meaning chart.now.source.now) chart.now.tokens.now request.now.depth request.now.weights.now result }
    ensures cleared { Cleared (2 * (length (S.Source.meaning chart.now.source.now).dimensions + request.now.phrases)) (V.writes V.nought) work.old work.new }
{
    let table = Table {
        base: chart.room.base,
        end: chart.end,
        categories: chart.source.categories() as usize,
        phrases: request.phrases,
    };
    let weighing = Weighing {
        chart,
        table,
        weights: request.weights,
    };
    let width = table.categories + table.phrases;
    clear::<V>(work, 0, width);
    weighing.rounds::<V>(work, request.depth);
    let value: V = weighing.start_value(work);
    clear::<V>(work, 0, 2 * width);
    value
}
