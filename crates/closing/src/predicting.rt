// Starting the bare rules of a phrase.
ghost use Rattle.chart.specs.Chart.{Chart};
ghost use Rattle.cells.specs.Facts.{phrase_of};
ghost use Rattle.closing.specs.State.{Has};
ghost use Rattle.closing.specs.Runs.{grammar_of, ReadyTo, Leaves};
ghost use Rattle.closing.specs.Predicted.{EachLive};

use crate::Run;
use cells::{Cell, Fact, Phrase};
use steps::predicted;

impl Run<'_> {
    // Starts constituent `s` at `k` by each bare rule that has the phrase on its left.
    pub fn predict_live(
        &self,
        cells: &mut [Cell],
        end: usize,
        awaited: Phrase,
        s: u32,
        k: u8,
    ) -> Option<usize>
        requires ready { ReadyTo self.now cells.old end }
        requires facts { EachLive (grammar_of self.now cells.old) (phrase_of awaited) s k (Chart (grammar_of self.now cells.old) self.now.tokens.now) }
        ensures { Leaves self.now cells.old cells.new end (λ e. EachLive (grammar_of self.now cells.old) (phrase_of awaited) s k (Has cells.new self.now.room.base e)) result }
    {
        let mut to = end;
        let mut place = self.first_live_for(cells, awaited.category);
        while let Some(p) = place {
            // No `?`: a phrase that is not bare has no such rule, and nothing to add is not no room.
            match self.bare_rule_for(cells, p) {
                Some(rule) if rule.left == awaited => {
                    to = self.add(cells, to, Fact::Item(predicted(rule, s, k)))?;
                }
                _ => return Some(to),
            }
            place = self.next_live_for(cells, p);
        }
        Some(to)
    }
}
