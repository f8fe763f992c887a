// One line of a transcript.
use std::alloc::{AllocError, AllocFailed, Global};
use std::num::ParseIntError;
use std::str::FromStr;

// The algebra that a note is weighed in.
#[derive(Clone, Copy)]
pub(crate) enum Weights {
    YesNo,
    Counts,
    Costs,
}

// Each number in a line is one of 32 bits: a greater one makes it no call.
#[derive(Drop)]
pub(crate) enum Call {
    // Opens an area of so many cells.
    Open(u32),
    Feed(u32),
    // The next list, with room for so many tokens.
    Next(u32),
    Verdict,
    // Linearizes a list of places, with room for so many tokens.
    Linearize(u32, Vec<u32>),
    Close,
    // Weighs to a depth; with no weights, every place has the algebra's one.
    Weigh(Weights, u32, Vec<u32>),
    End,
}

// Why a line is no call.
#[derive(Clone, Copy)]
pub(crate) enum LineError {
    // It is not written as one.
    NoCall,
    Alloc(AllocError),
}

impl From<ParseIntError> for LineError {
    fn from(_: ParseIntError) -> LineError {
        LineError::NoCall
    }
}

impl From<AllocError> for LineError {
    fn from(error: AllocError) -> LineError {
        LineError::Alloc(error)
    }
}

impl<T: Drop> From<AllocFailed<T>> for LineError {
    fn from(failed: AllocFailed<T>) -> LineError {
        LineError::Alloc(failed.into())
    }
}

impl FromStr for Weights {
    type Err = LineError;

    fn from_str(text: &str) -> Result<Weights, LineError> {
        match text {
            "yesno" => Ok(Weights::YesNo),
            "counts" => Ok(Weights::Counts),
            "costs" => Ok(Weights::Costs),
            _ => Err(LineError::NoCall),
        }
    }
}

fn numbers(heap: Global, text: &str) -> Result<Vec<u32>, LineError> {
    let mut numbers = Vec::new(heap);
    for word in text.split_whitespace() {
        numbers.push(word.parse()?)?;
    }
    Ok(numbers)
}

// `ALGEBRA DEPTH [WEIGHT..]`
fn weigh_call(heap: Global, text: &str) -> Result<Call, LineError> {
    let (algebra, rest) = text.split_once(' ').ok_or(LineError::NoCall)?;
    let given = numbers(heap, rest)?;
    let (depth, weights) = given.split_first().ok_or(LineError::NoCall)?;
    Ok(Call::Weigh(algebra.parse()?, *depth, Vec::from_slice(heap, weights)?))
}

// `ROOM PLACE..`
fn linearize_call(heap: Global, text: &str) -> Result<Call, LineError> {
    let given = numbers(heap, text)?;
    let (room, places) = given.split_first().ok_or(LineError::NoCall)?;
    Ok(Call::Linearize(*room, Vec::from_slice(heap, places)?))
}

// A call of one number, or of none.
fn short_call(name: &str, text: &str) -> Result<Call, LineError> {
    match name {
        "open" => Ok(Call::Open(text.parse()?)),
        "feed" => Ok(Call::Feed(text.parse()?)),
        "next" => Ok(Call::Next(text.parse()?)),
        "verdict" if text.is_empty() => Ok(Call::Verdict),
        "close" if text.is_empty() => Ok(Call::Close),
        "end" if text.is_empty() => Ok(Call::End),
        _ => Err(LineError::NoCall),
    }
}

// What a line asks for.
pub(crate) fn parse(heap: Global, line: &str) -> Result<Call, LineError> {
    let (name, rest) = line.split_once(' ').unwrap_or((line, ""));
    match name {
        "weigh" => weigh_call(heap, rest),
        "linearize" => linearize_call(heap, rest),
        _ => short_call(name, rest),
    }
}
