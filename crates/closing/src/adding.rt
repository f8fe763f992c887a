// One fact more.
ghost use Rattle.chart.specs.Chart.{Chart};
ghost use Rattle.cells.specs.Facts.{meant};
ghost use Rattle.closing.specs.State.{Has};
ghost use Rattle.closing.specs.Runs.{grammar_of, ReadyTo, Leaves};

use crate::{Room, Run};
use cells::{Cell, Fact};

impl Run<'_> {
    // Adds a fact of the chart, unless it is there.
    pub fn add(&self, cells: &mut [Cell], end: usize, fact: Fact) -> Option<usize>
        requires ready { ReadyTo self.now cells.old end }
        requires fact { Chart (grammar_of self.now cells.old) self.now.tokens.now (meant fact) }
        ensures { Leaves self.now cells.old cells.new end (λ e. Has cells.new self.now.room.base e (meant fact)) result }
    {
        let Room { base, limit } = self.room;
        if fact_log::contains(cells, base, end, fact) {
            return Some(end);
        }
        let wait = self.wait_for(cells, fact);
        fact_log::append(cells, base, end, limit, fact, wait)
    }
}
