// Whether a grammar may be opened, and what no tree can use.
ghost use Rattle.std.specs.Prelude.{ℕ};

use faults::Fault;
use grammar::Source;
use soundness::{check, has_tree, is_dead, tree_heights};
use std::io;

// The refusal of an opening, as a line.
pub(crate) fn refused(rt: &impl Print, fault: Fault) -> io::Result<()> {
    let number = fault.number();
    // A match: each case prints a line of its own.
    match fault.thing() {
        Some(thing) => {
            let which = thing.number();
            println!(rt; "opening: refused {number} at {thing} {which}: {fault}")
        }
        None => println!(rt; "opening: refused {number}: {fault}"),
    }
}

// The numbers below `count` that pass the test, each behind `mark`, on one line; or that there is none.
fn passing_line<F: Fn(u32) -> bool>(
    rt: &impl Print,
    title: &str,
    mark: &str,
    count: u32,
    passes: F,
) -> io::Result<()>
    requires { F.IsAlwaysCallable passes }
{
    print!(rt; "{title}:")?;
    let mut passing = (0..count).filter(|n| passes(*n)).peekable();
    if passing.peek().is_none() {
        print!(rt; " none")?;
    }
    for n in passing {
        print!(rt; " {mark}{n}")?;
    }
    println!(rt; "")
}

// Whether the source may be opened or which refusal it meets; and, unless it has a fault, the categories that have no tree and the
// places that are dead because of that.
pub(crate) fn lines<S: Source>(rt: &impl Print, source: &S) -> io::Result<()> {
    match check(source) {
        Ok(_) => println!(rt; "opening: accepted")?,
        Err(fault) => refused(rt, fault)?,
    }
    if let Some(heights) = tree_heights(source) {
        passing_line(
            rt,
            "categories without a tree",
            "C",
            source.categories(),
            |c| !has_tree(&heights, c),
        )?;
        passing_line(rt, "dead places", "", source.places(), |p| {
            is_dead(source, &heights, p)
        })?;
    }
    Ok(())
}
