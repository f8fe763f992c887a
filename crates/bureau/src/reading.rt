// Reading the notes of a file, one to a line, each as its token numbers.
use crate::table::{Sort, Table};
use algebra::Algebra;
use anyhow::{Result, bail};
use area::OpeningFault;
use calls::FeedingRefusal;
use cells::{Cell, ZERO};
use faults::limits;
use grammar::Source;
use models::Count;
use note::{Answer, Question, RunFault, Told, run};
use std::alloc::Global;

// The cells that the first area has; it is doubled where they are too few.
const FIRST_AREA: usize = 4096;

// The most doublings: more cells than a machine has.
const DOUBLINGS: usize = 40;

// As many lines as are read between two words of progress.
const STEP: usize = 1000;

// What a note came to.
#[derive(Drop)]
struct Reading {
    // How many of its tokens were accepted.
    accepted: usize,
    // Why the token after them was refused, if one was.
    refusal: Option<FeedingRefusal>,
    // The tokens that may follow the accepted ones.
    next: Vec<u32>,
    complete: bool,
    // How many readings they have, to the depth.
    readings: u32,
    cells: usize,
}

// The first refusal among the answers, with how many tokens were accepted before it.
fn first_refusal(answers: &[Answer]) -> Option<(usize, FeedingRefusal)> {
    for (i, answer) in answers.iter().enumerate() {
        if let Answer::Fed(Err(refusal)) = answer {
            return Some((i, *refusal));
        }
    }
    None
}

// Runs a note in the area, which is doubled until it has room for it.
fn run_in<S: Source>(
    heap: Global,
    source: &S,
    area: &mut Vec<Cell>,
    questions: &[Question<'_>],
    depth: u32,
) -> Result<Told<Count>> {
    let weights = vec![in heap; Count::one().write(); source.places() as usize]?;
    for _ in 0..DOUBLINGS {
        let mut work = vec![in heap; 0; area.len().saturating_mul(2)]?;
        match run::<Count, S>(heap, source, area, questions, depth, &weights, &mut work) {
            Ok(told) => match first_refusal(&told.answers) {
                Some((_, FeedingRefusal::TooShort)) => {}
                _ => return Ok(told),
            },
            Err(RunFault::Opening(OpeningFault::TooShort)) => {}
            Err(RunFault::Opening(OpeningFault::Unsound(_))) => bail!(
                "the grammar may not be opened"
            ),
            Err(RunFault::NoMemory) => bail!("there is not enough memory for the answers"),
        }
        let more = area.len().max(1);
        area.resize(area.len().saturating_add(more), ZERO)?;
    }
    bail!("there is not enough memory for an area")
}

// The cells in use after the last token that was accepted.
fn cells_of(told: &Told<Count>) -> usize {
    let mut cells = told.opened;
    for answer in &told.answers {
        if let Answer::Fed(Ok(used)) = answer {
            cells = *used;
        }
    }
    cells
}

// The tokens that may follow, where they were told.
fn next_of(heap: Global, told: &Told<Count>) -> Result<Vec<u32>> {
    for answer in &told.answers {
        if let Answer::Next(Ok(list)) = answer {
            return Ok(Vec::from_slice(heap, list)?);
        }
    }
    Ok(Vec::new(heap))
}

// What was told of a note whose first tokens were accepted, so many of them.
fn reading_of(
    heap: Global,
    told: &Told<Count>,
    accepted: usize,
    refusal: Option<FeedingRefusal>,
) -> Result<Reading> {
    let complete = told
        .answers
        .iter()
        .any(|answer| matches!(answer, Answer::Verdict(true)));
    let readings = match &told.sum {
        Ok(sum) => sum.write(),
        Err(_) => bail!("readings are counted to a depth of 1 to 32"),
    };
    Ok(Reading {
        accepted,
        refusal,
        next: next_of(heap, told)?,
        complete,
        readings,
        cells: cells_of(told),
    })
}

// Feeds the tokens, and then asks what may follow and for the verdict.
fn ask<S: Source>(
    heap: Global,
    source: &S,
    area: &mut Vec<Cell>,
    tokens: &[u32],
    depth: u32,
) -> Result<Told<Count>> {
    let mut questions = Vec::new(heap);
    for token in tokens {
        questions.push(Question::Feed(*token))?;
    }
    questions.push(Question::Next(limits::TOKENS as usize))?;
    questions.push(Question::Verdict)?;
    run_in(heap, source, area, &questions, depth)
}

// Reads a note as far as its tokens are accepted. Where one is refused, the note is run once more up to it, so that no token behind
// it is fed.
fn read_note<S: Source>(
    heap: Global,
    source: &S,
    area: &mut Vec<Cell>,
    tokens: &[u32],
    depth: u32,
) -> Result<Reading> {
    let told = ask(heap, source, area, tokens, depth)?;
    let Some((accepted, refusal)) = first_refusal(&told.answers) else {
        return reading_of(heap, &told, tokens.len(), None);
    };
    let front = match tokens.split_at_checked(accepted) {
        Some((front, _)) => front,
        None => tokens,
    };
    let again = ask(heap, source, area, front, depth)?;
    reading_of(heap, &again, accepted, Some(refusal))
}

// The sort of a note.
fn sort_of(reading: &Reading) -> Sort {
    match (reading.refusal, reading.complete, reading.readings) {
        (Some(_), _, _) => Sort::Unreadable,
        (None, false, _) => Sort::Incomplete,
        (None, true, 0) => Sort::TooDeep,
        (None, true, 1) => Sort::OneReading,
        (None, true, _) => Sort::SeveralReadings,
    }
}

fn print_tokens(rt: &impl Print, title: &str, tokens: &[u32]) -> Result<()> {
    print!(rt; "{title}")?;
    for token in tokens {
        print!(rt; " {token}")?;
    }
    Ok(())
}

// A note's line: its accepted tokens, where and why it stops and what could have followed, whether it is complete, its readings and
// its cells.
fn print_reading(rt: &impl Print, line: usize, tokens: &[u32], reading: &Reading) -> Result<()> {
    print!(rt; "line {line}: ")?;
    let front = tokens.split_at_checked(reading.accepted);
    print_tokens(rt, "accepted", front.map_or(tokens, |parts| parts.0))?;
    if let (Some(refusal), Some(token)) = (reading.refusal, tokens.get(reading.accepted)) {
        let number = refusal.number();
        print!(rt; "; refused {number} at {token}")?;
    }
    if matches!(sort_of(reading), Sort::Unreadable | Sort::Incomplete) {
        print_tokens(rt, "; could follow", &reading.next)?;
    }
    let verdict = if reading.complete {
        "complete"
    } else {
        "incomplete"
    };
    let readings = reading.readings;
    let cells = reading.cells;
    println!(rt; "; {verdict}; readings {readings}; cells {cells}")?;
    Ok(())
}

// The tokens of a line, or nothing where a word of it is no number.
fn tokens_of(heap: Global, text: &str) -> Result<Option<Vec<u32>>> {
    let mut tokens = Vec::new(heap);
    for word in text.split_whitespace() {
        let Ok(token) = word.parse() else {
            return Ok(None);
        };
        tokens.push(token)?;
    }
    Ok(Some(tokens))
}

// Reads the notes of a text, one to a line, with the grammar of a source, and prints each and then the table. A line that is no note
// is named, and counted.
pub fn read_notes<S: Source>(rt: &HostRuntime, source: &S, text: &str, depth: u32) -> Result<()> {
    let mut area = vec![in rt.alloc(); ZERO; FIRST_AREA]?;
    let mut table = Table::default();
    for (i, text) in text.lines().enumerate() {
        let line = i.saturating_add(1);
        match tokens_of(rt.alloc(), text)? {
            Some(tokens) => {
                let reading = read_note(rt.alloc(), source, &mut area, &tokens, depth)?;
                print_reading(rt, line, &tokens, &reading)?;
                table.add(sort_of(&reading));
            }
            None => {
                println!(rt; "line {line}: no note")?;
                table.add_bad();
            }
        }
        if line % STEP == 0 {
            eprintln!(rt; "{line} lines read")?;
        }
    }
    table.print(rt, depth)
}
