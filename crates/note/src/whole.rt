// The whole of a note in one call.
ghost use Rattle.std.specs.Prelude.{◌≡◌, length, replicate};
ghost use Rattle.std.specs.Result.{IfOk, OnErr};
ghost use Rattle.grammar.specs.Grammar.{Grammar};
ghost use Rattle.cells.specs.Facts.{zero_cell};
ghost use Rattle.note.specs.declared.whole.RunFault.TheVariants.{Opening, NoMemory};
ghost use Rattle.note.specs.Promises.{OpenedFor, ToldOf, Runs};

use crate::asking::ask_all;
use crate::question::{Answer, Question};
use algebra::Algebra;
use area::{Numbers, OpeningFault, clear, open_area};
use calls::{WeighingRefusal, close_in, weigh_in};
use cells::Cell;
use grammar::Source;
use std::alloc::{AllocError, Global};
use weigh::Request;

// What was answered from opening to weighing.
#[derive(Drop)]
pub struct Told<V> {
    // The cells in use for no tokens.
    pub opened: usize,
    // The answers to the questions, in their order.
    pub answers: Vec<Answer>,
    // The bound q.
    pub bound: usize,
    // The sum to the depth asked for.
    pub sum: Result<V, WeighingRefusal>,
}

// Why nothing is told.
#[derive(Clone, Copy)]
pub enum RunFault {
    Opening(OpeningFault),
    // There was no memory for the answers.
    NoMemory,
}

impl From<OpeningFault> for RunFault {
    ghost from_gives = { λ fault e. e ≡ Opening fault };

    fn from(fault: OpeningFault) -> RunFault {
        RunFault::Opening(fault)
    }
}

impl From<AllocError> for RunFault {
    ghost from_gives = { λ _ e. e ≡ NoMemory };

    fn from(_: AllocError) -> RunFault {
        RunFault::NoMemory
    }
}

// Asks, closes and weighs what was opened.
fn tell<V: Algebra>(
    heap: Global,
    cells: &mut [Cell],
    opened: Numbers,
    questions: &[Question<'_>],
    depth: u32,
    weights: &[u32],
    work: &mut [u32],
) -> Result<Told<V>, AllocError>
    requires { (g : Grammar) × OpenedFor g cells.old opened }
    ensures told { IfOk result (λ told. (g : Grammar) → OpenedFor g cells.old opened → ToldOf V.nought V.plus V.times V.reads V.writes g (length cells.old) questions.now depth weights.now work.old work.new told) }
    ensures untold { OnErr result (work.new ≡ work.old) }
{
    let used = opened.cells_in_use(cells);
    let (answers, numbers) = ask_all(heap, cells, opened, questions)?;
    let closing = close_in(cells, numbers);
    let request = Request {
        phrases: closing.phrases,
        depth,
        weights,
    };
    let sum = weigh_in(cells, numbers, &request, work);
    Ok(Told {
        opened: used,
        answers,
        bound: closing.bound,
        sum,
    })
}

// Opens a note in the area with the grammar of a source, puts every question to it, closes it and weighs it to a depth. In the end
// every cell is zero.
pub fn run<V: Algebra, S: Source>(
    heap: Global,
    source: &S,
    cells: &mut [Cell],
    questions: &[Question<'_>],
    depth: u32,
    weights: &[u32],
    work: &mut [u32],
) -> Result<Told<V>, RunFault>
    ensures runs { Runs V.nought V.plus V.times V.reads V.writes (S.meaning source.now) (length cells.old) questions.now depth weights.now work.old work.new result }
    ensures zero { cells.new ≡ replicate (length cells.old) zero_cell }
{
    let opened = open_area(source, cells)?;
    let told = tell(heap, cells, opened, questions, depth, weights, work);
    clear(cells);
    Ok(told?)
}
