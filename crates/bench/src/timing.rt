// The times of one note: of opening it, of each token, of each next list, and of closing with weighing or ending.
use algebra::Algebra;
use anyhow::{Result, bail};
use cells::Cell;
use grammar::Source;
use models::Count;
use note::{OpenNote, check};
use std::fmt::Write;
use std::time::Instant;

// The depth of counts.
const DEPTH: u32 = 32;

// The most tokens that may follow.
const MOST_TOKENS: usize = 1024;

// What is asked of a note beside feeding it.
#[derive(Clone, Copy)]
pub(crate) struct Task {
    // The next list after each token.
    pub next: bool,
    // The count.
    pub weigh: bool,
}

// The nanoseconds from then to now.
fn nanos(rt: &HostRuntime, start: Instant) -> Result<u128> {
    Ok(start.elapsed(rt)?.as_nanos())
}

// Feeds the tokens, and asks for the next list after each where that is the task. Prints each time, and the cells in use at the end,
// which are `opened` where there is no token.
fn time_feeds(
    rt: &HostRuntime,
    note: &mut OpenNote<'_>,
    tokens: &[u32],
    task: Task,
    opened: usize,
) -> Result<()> {
    let mut list = [0; MOST_TOKENS];
    let mut feeds = String::new(rt.alloc());
    let mut nexts = String::new(rt.alloc());
    let mut cells = opened;
    let mut offered = 0;
    for token in tokens {
        let start = Instant::now(rt)?;
        let fed = note.feed(*token);
        let time = nanos(rt, start)?;
        write!(feeds, " {time}")?;
        match fed {
            Ok(used) => cells = used,
            Err(_) => bail!("a token is refused"),
        }
        if task.next {
            let start = Instant::now(rt)?;
            let told = note.next_list(&mut list);
            let time = nanos(rt, start)?;
            write!(nexts, " {time}")?;
            offered = told.map_or(offered, |n| n.saturating_add(offered));
        }
    }
    print!(rt; "feed{feeds} next{nexts} cells {cells} offered {offered}")?;
    Ok(())
}

// Closes and weighs the note, or ends it. Prints the times and the count.
fn time_end<S: Source>(rt: &HostRuntime, source: &S, note: OpenNote<'_>, task: Task) -> Result<()> {
    let start = Instant::now(rt)?;
    if !task.weigh {
        let _ = note.end();
        let time = nanos(rt, start)?;
        println!(rt; " weigh 0 end {time} count 0")?;
        return Ok(());
    }
    let weights = vec![in rt.alloc(); Count::one().write(); source.places() as usize]?;
    let closed = note.close();
    let mut work = vec![in rt.alloc(); 0; closed.bound().saturating_mul(2)]?;
    let (_, sum) = closed.weigh::<Count>(DEPTH, &weights, &mut work);
    let time = nanos(rt, start)?;
    let Ok(sum) = sum else {
        bail!("the weighing is refused");
    };
    let count = sum.write();
    println!(rt; " weigh {time} end 0 count {count}")?;
    Ok(())
}

// Runs one note, and prints its line.
pub(crate) fn time_note<S: Source>(
    rt: &HostRuntime,
    source: &S,
    area: &mut [Cell],
    tokens: &[u32],
    task: Task,
) -> Result<()> {
    let start = Instant::now(rt)?;
    let Ok(accepted) = check(source, area) else {
        bail!("the grammar is not opened");
    };
    let mut note = OpenNote::make(area, accepted);
    let time = nanos(rt, start)?;
    print!(rt; "open {time} ")?;
    time_feeds(rt, &mut note, tokens, task, accepted.cells_in_use())?;
    time_end(rt, source, note, task)
}
