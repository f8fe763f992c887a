// What is proved of the calls. The function's contract has the theorems; the function does nothing.
ghost use Rattle.calls.specs.Theorems.{OneFeeding, OneNextList, OneWeighing};

use algebra::Algebra;

// Each call has one answer.
pub fn answers_are_one<V: Algebra>()
    ensures feeding { OneFeeding }
    ensures next { OneNextList }
    ensures weighing { OneWeighing V.nought V.plus V.times V.reads V.writes }
{}
