// Playing the calls of a transcript, note by note.
use crate::call::{Call, LineError, Weights, parse};
use algebra::Algebra;
use anyhow::Result;
use area::OpeningFault;
use cells::ZERO;
use faults::limits;
use grammar::Source;
use models::{Cost, Count, YesNo};
use note::{ClosedNote, OpenNote, check};

// A line of the transcript, and the call that it writes, if it writes one.
#[derive(Drop)]
struct Line<'t> {
    text: &'t str,
    call: Option<Call>,
}

impl Line<'_> {
    fn opens(&self) -> bool {
        matches!(self.call, Some(Call::Open(_)))
    }

    // Whether the open note ends with this call, or is closed.
    fn stops(&self) -> bool {
        matches!(self.call, Some(Call::Close | Call::End))
    }

    // Whether the closed note ends with this call.
    fn spends(&self) -> bool {
        matches!(self.call, Some(Call::Weigh(_, _, _) | Call::End))
    }
}

fn read_line(rt: &HostRuntime, text: &str) -> Result<Option<Call>> {
    match parse(rt.alloc(), text) {
        Ok(call) => Ok(Some(call)),
        Err(LineError::NoCall) => Ok(None),
        Err(LineError::Alloc(error)) => Err(error.into()),
    }
}

// Calls where no note is open: each is told so, but a line that is no call.
fn unopened(rt: &HostRuntime, calls: &[Line<'_>]) -> Result<()> {
    for line in calls {
        let text = line.text;
        match line.call {
            Some(_) => println!(rt; "{text} -> no note")?,
            None => println!(rt; "{text} -> no call")?,
        }
    }
    Ok(())
}

// The numbers that a call wrote at the front of a list, or the number of its refusal.
fn told_list(rt: &HostRuntime, text: &str, list: &[u32], answer: Result<usize, u32>) -> Result<()> {
    match answer {
        Ok(n) => {
            print!(rt; "{text} -> ok")?;
            for number in list.iter().take(n) {
                print!(rt; " {number}")?;
            }
            println!(rt; "")?;
        }
        Err(refusal) => println!(rt; "{text} -> refused {refusal}")?,
    }
    Ok(())
}

// The one number of an answer, or the number of its refusal.
fn told_number(rt: &HostRuntime, text: &str, answer: Result<usize, u32>) -> Result<()> {
    match answer {
        Ok(number) => println!(rt; "{text} -> ok {number}")?,
        Err(refusal) => println!(rt; "{text} -> refused {refusal}")?,
    }
    Ok(())
}

fn refused_opening(rt: &HostRuntime, text: &str, fault: OpeningFault) -> Result<()> {
    let number = fault.number();
    let thing = match fault {
        OpeningFault::Unsound(unsound) => unsound.thing(),
        OpeningFault::TooShort => None,
    };
    match thing {
        Some(thing) => {
            let which = thing.number();
            println!(rt; "{text} -> refused {number} {thing} {which}")?;
        }
        None => println!(rt; "{text} -> refused {number}")?,
    }
    Ok(())
}

// A question to a note that is open: it answers and stays open.
fn ask(rt: &HostRuntime, note: &mut OpenNote<'_>, line: &Line<'_>) -> Result<()> {
    let text = line.text;
    match &line.call {
        Some(Call::Feed(token)) => {
            let answer = note.feed(*token).map_err(|refusal| refusal.number());
            told_number(rt, text, answer)?;
        }
        Some(Call::Next(room)) => {
            // No next list is longer than a grammar has tokens: more room is never taken of memory.
            let mut list = vec![in rt.alloc(); 0; (*room).min(limits::TOKENS) as usize]?;
            let answer = note
                .next_list(&mut list)
                .map_err(|refusal| refusal.number());
            told_list(rt, text, &list, answer)?;
        }
        Some(Call::Verdict) => {
            let verdict = if note.is_complete() {
                "complete"
            } else {
                "incomplete"
            };
            println!(rt; "{text} -> {verdict}")?;
        }
        Some(Call::Linearize(room, places)) => {
            let mut output = vec![in rt.alloc(); 0; *room as usize]?;
            let answer = note
                .linearize(places, &mut output)
                .map_err(|refusal| refusal.number());
            told_list(rt, text, &output, answer)?;
        }
        Some(_) => println!(rt; "{text} -> no note")?,
        None => println!(rt; "{text} -> no call")?,
    }
    Ok(())
}

// A question to a closed note, which answers and stays as it is.
fn ask_closed(rt: &HostRuntime, note: &ClosedNote<'_>, line: &Line<'_>) -> Result<()> {
    let text = line.text;
    match &line.call {
        Some(Call::Linearize(room, places)) => {
            let mut output = vec![in rt.alloc(); 0; *room as usize]?;
            let answer = note
                .linearize(places, &mut output)
                .map_err(|refusal| refusal.number());
            told_list(rt, text, &output, answer)?;
        }
        Some(_) => println!(rt; "{text} -> no note")?,
        None => println!(rt; "{text} -> no call")?,
    }
    Ok(())
}

// Weighs a closed note in an algebra.
fn weigh<V: Algebra>(
    rt: &HostRuntime,
    text: &str,
    note: ClosedNote<'_>,
    places: usize,
    depth: u32,
    weights: &[u32],
) -> Result<()> {
    let ones = vec![in rt.alloc(); V::one().write(); places]?;
    let weights = if weights.is_empty() { &ones } else { weights };
    let mut work = vec![in rt.alloc(); 0; note.bound().saturating_mul(2)]?;
    let (_, sum) = note.weigh::<V>(depth, weights, &mut work);
    match sum {
        Ok(value) => {
            let number = value.write();
            println!(rt; "{text} -> ok {number}")?;
        }
        Err(refusal) => {
            let number = refusal.number();
            println!(rt; "{text} -> refused {number}")?;
        }
    }
    Ok(())
}

// The calls of a closed note, to where it is weighed or ends.
fn play_closed(
    rt: &HostRuntime,
    note: ClosedNote<'_>,
    places: usize,
    calls: &[Line<'_>],
) -> Result<()> {
    let end = calls
        .iter()
        .position(|line| line.spends())
        .unwrap_or(calls.len());
    let (asked, rest) = calls.split_at(end);
    for line in asked {
        ask_closed(rt, &note, line)?;
    }
    let Some((last, rest)) = rest.split_first() else {
        return Ok(());
    };
    let text = last.text;
    match &last.call {
        Some(Call::Weigh(Weights::YesNo, depth, weights)) => weigh::<YesNo>(
            rt, text, note, places, *depth, weights,
        )?,
        Some(Call::Weigh(Weights::Counts, depth, weights)) => weigh::<Count>(
            rt, text, note, places, *depth, weights,
        )?,
        Some(Call::Weigh(Weights::Costs, depth, weights)) => weigh::<Cost>(
            rt, text, note, places, *depth, weights,
        )?,
        _ => {
            let _ = note.end();
            println!(rt; "{text} -> ok")?;
        }
    }
    unopened(rt, rest)
}

// The calls of an open note, to where it is closed or ends.
fn play_open(
    rt: &HostRuntime,
    mut note: OpenNote<'_>,
    places: usize,
    calls: &[Line<'_>],
) -> Result<()> {
    let end = calls
        .iter()
        .position(|line| line.stops())
        .unwrap_or(calls.len());
    let (asked, rest) = calls.split_at(end);
    for line in asked {
        ask(rt, &mut note, line)?;
    }
    let Some((last, rest)) = rest.split_first() else {
        return Ok(());
    };
    let text = last.text;
    if let Some(Call::Close) = last.call {
        let closed = note.close();
        let bound = closed.bound();
        println!(rt; "{text} -> ok {bound}")?;
        play_closed(rt, closed, places, rest)
    } else {
        let _ = note.end();
        println!(rt; "{text} -> ok")?;
        unopened(rt, rest)
    }
}

// The calls from one opening to the next.
fn play_note<S: Source>(rt: &HostRuntime, source: &S, calls: &[Line<'_>]) -> Result<()> {
    let Some((first, rest)) = calls.split_first() else {
        return Ok(());
    };
    let Some(Call::Open(size)) = first.call else {
        return unopened(rt, calls);
    };
    let text = first.text;
    let mut area = vec![in rt.alloc(); ZERO; size as usize]?;
    match check(source, &mut area) {
        Ok(accepted) => {
            let used = accepted.cells_in_use();
            println!(rt; "{text} -> ok {used}")?;
            let note = OpenNote::make(&mut area, accepted);
            play_open(rt, note, source.places() as usize, rest)
        }
        Err(fault) => {
            refused_opening(rt, text, fault)?;
            unopened(rt, rest)
        }
    }
}

// Plays the calls of a text, one to a line, with the grammar of a source.
pub fn play<S: Source>(rt: &HostRuntime, source: &S, text: &str) -> Result<()> {
    let mut lines = Vec::new(rt.alloc());
    for text in text.lines() {
        let call = read_line(rt, text)?;
        lines.push(Line { text, call })?;
    }
    for calls in lines.chunk_by(|_, next| !next.opens()) {
        play_note(rt, source, calls)?;
    }
    Ok(())
}
