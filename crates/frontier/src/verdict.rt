// Whether the whole is read.
ghost use Rattle.std.specs.Prelude.{Decides};
ghost use Rattle.chart.specs.Chart.{Accepts};
ghost use Rattle.closing.specs.Charts.{Stands};

use closing::Chart;
use fact_log::things::{Key, Thing};
use grammar::Source;

// Whether some made rule has the start phrase, read as the whole of the tokens, on its left.
pub fn accepted<S: Source>(chart: &Chart<'_, S>) -> bool
    requires { Stands (S.meaning chart.now.source.now) chart.now }
    ensures { Decides result (Accepts (S.meaning chart.now.source.now) chart.now.tokens.now) }
{
    let whole = Thing::Key(Key::alone(true, chart.start_phrase()));
    fact_log::latest(chart.cells, chart.room.base, chart.end, whole, chart.end).is_some()
}
