// The worked examples of four small grammars, as one list of lines that hold.
#![tactic(auto)]

ghost use Rattle.samples.specs.Lines.{SamplesAnswered};

use chart::value_is_sum;
use models::{Cost, Count};

// Each line of the list holds.
pub fn samples_are_answered()
    ensures { SamplesAnswered }
{
    value_is_sum::<Count>();
    value_is_sum::<Cost>();
}
