// What is proved of the calls of a note. The function's contract has the theorems; the function does nothing.
ghost use Rattle.note.specs.Theorems.{OneCheck, OneFeeding, OneNextList, OneRun};

use algebra::Algebra;

// What the contracts of the calls say of an answer determines it; but a run may say that there was no memory, in place of telling.
pub fn answers_are_one<V: Algebra>()
    ensures check { OneCheck }
    ensures feeding { OneFeeding }
    ensures next { OneNextList }
    ensures run { OneRun V.nought V.plus V.times V.reads V.writes }
{}
