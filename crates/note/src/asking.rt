// Putting questions to an area.
ghost use Rattle.std.specs.Prelude.{◌≡◌, ℕ, List, length};
ghost use Rattle.std.specs.Result.{IfOk, result_map_both};
ghost use Rattle.grammar.specs.Grammar.{Grammar};
ghost use Rattle.area.specs.Held.{Held};
ghost use Rattle.area.specs.Contents.{InUse};
ghost use Rattle.note.specs.Promises.{FeedAnswered, NextAnswered, LinearizedAnswered, Answered, AllAnswered};

use crate::question::{Answer, Question};
use crate::short_list::ListTooShort;
use area::Numbers;
use calls::{FeedingRefusal, feed, linearize_in, next_list};
use cells::Cell;
use faults::limits;
use linearize::Unlinearized;
use std::alloc::{AllocError, Global};

// The tokens that may follow, or that they are more than there is room for.
fn next(
    heap: Global,
    cells: &[Cell],
    numbers: Numbers,
    room: usize,
) -> Result<Result<Vec<u32>, ListTooShort>, AllocError>
    requires { InUse cells.now numbers }
    ensures { IfOk result (λ told. (g : Grammar) (w : List ℕ) → Held g w cells.now numbers → NextAnswered g w room (result_map_both (λ l. l.items) (λ e. e) told)) }
{
    // No list of tokens that may follow is longer than a grammar has tokens.
    let mut list = vec![in heap; 0; room.min(limits::TOKENS as usize)]?;
    match next_list(cells, numbers, &mut list) {
        Some(n) => {
            list.truncate(n);
            Ok(Ok(list))
        }
        None => Ok(Err(ListTooShort)),
    }
}

// The string of the start tree that the list of places writes.
fn linearized(
    heap: Global,
    cells: &[Cell],
    numbers: Numbers,
    list: &[u32],
    room: usize,
) -> Result<Result<Vec<u32>, Unlinearized>, AllocError>
    requires { InUse cells.now numbers }
    ensures { IfOk result (λ told. (g : Grammar) (w : List ℕ) → Held g w cells.now numbers → LinearizedAnswered g list.now room (result_map_both (λ l. l.items) (λ e. e) told)) }
{
    let mut output = vec![in heap; 0; room]?;
    match linearize_in(cells, numbers, list, &mut output) {
        Ok(n) => {
            output.truncate(n);
            Ok(Ok(output))
        }
        Err(refusal) => Ok(Err(refusal)),
    }
}

// Feeds a token: the answer, and the numbers of the area then.
fn fed(cells: &mut [Cell], numbers: Numbers, token: u32) -> (Result<usize, FeedingRefusal>, Numbers)
    requires { InUse cells.old numbers }
    ensures { (g : Grammar) (w : List ℕ) → Held g w cells.old numbers → (v : List ℕ) × Held g v cells.new result.1 × FeedAnswered g (length cells.old) w token result.0 v }
{
    match feed(cells, numbers, token) {
        Ok(then) => (Ok(then.cells_in_use(cells)), then),
        Err(refusal) => (Err(refusal), numbers),
    }
}

// Puts one question to the area: its answer, and the numbers of the area then.
fn ask(
    heap: Global,
    cells: &mut [Cell],
    numbers: Numbers,
    question: Question<'_>,
) -> Result<(Answer, Numbers), AllocError>
    requires { InUse cells.old numbers }
    ensures length { length cells.new ≡ length cells.old }
    ensures answered { IfOk result (λ r. (g : Grammar) (w : List ℕ) → Held g w cells.old numbers → (v : List ℕ) × Held g v cells.new r.1 × Answered g (length cells.old) w question.entry r.0 v) }
{
    match question {
        Question::Feed(token) => {
            let (told, then) = fed(cells, numbers, token);
            Ok((Answer::Fed(told), then))
        }
        Question::Next(room) => Ok((Answer::Next(next(heap, cells, numbers, room)?), numbers)),
        Question::Verdict => Ok((Answer::Verdict(numbers.is_complete(cells)), numbers)),
        Question::Linearize(list, room) => Ok((
            Answer::Linearized(linearized(heap, cells, numbers, list, room)?),
            numbers,
        )),
    }
}

// Puts one question after another to the area.
pub(crate) fn ask_all(
    heap: Global,
    cells: &mut [Cell],
    opened: Numbers,
    questions: &[Question<'_>],
) -> Result<(Vec<Answer>, Numbers), AllocError>
    requires { InUse cells.old opened }
    ensures { IfOk result (λ r. (g : Grammar) (w : List ℕ) → Held g w cells.old opened → (v : List ℕ) × Held g v cells.new r.1 × AllAnswered g (length cells.old) w questions.now r.0.items v) }
{
    let mut answers = Vec::new(heap);
    let mut numbers = opened;
    for question in questions {
        let (answer, then) = ask(heap, cells, numbers, *question)?;
        answers.push(answer)?;
        numbers = then;
    }
    Ok((answers, numbers))
}
