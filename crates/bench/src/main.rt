// Times the reader on the notes of a file, for bench/run to compare with the baseline. With no words it prints how it is called.
#![tactic(auto)]

mod timing;

use anyhow::{Result, bail};
use cells::ZERO;
use packed::Packed;
use std::{env, fs};
use timing::{Task, time_note};

const USAGE: &str = "bench GRAMMAR NOTES AREA REPETITIONS [next] [weigh]";

// The tokens of a line; a word that is no number is an error.
fn tokens_of(rt: &HostRuntime, line: &str) -> Result<Vec<u32>> {
    let mut tokens = Vec::new(rt.alloc());
    for word in line.split_whitespace() {
        tokens.push(word.parse()?)?;
    }
    Ok(tokens)
}

// Times the notes of a text, so often.
fn time_notes(
    rt: &HostRuntime,
    source: &Packed<'_>,
    text: &str,
    size: usize,
    repetitions: u32,
    task: Task,
) -> Result<()> {
    let mut area = vec![in rt.alloc(); ZERO; size]?;
    for _ in 0..repetitions {
        for line in text.lines() {
            let tokens = tokens_of(rt, line)?;
            time_note(rt, source, &mut area, &tokens, task)?;
        }
    }
    Ok(())
}

fn main(rt: HostRuntime) -> Result<()> {
    let args: Vec<String> = env::args(&rt)?.skip(1).collect(rt.alloc())?;
    let [grammar, notes, size, repetitions, options @ ..] = args.as_slice() else {
        println!(rt; "{USAGE}")?;
        return Ok(());
    };
    let bytes = fs::read(&rt, grammar.as_str())?;
    let text = fs::read_to_string(&rt, notes.as_str())?;
    let Ok(source) = Packed::read(&bytes) else {
        bail!("the file spells no grammar");
    };
    let task = Task {
        next: options.iter().any(|option| option.as_str() == "next"),
        weigh: options.iter().any(|option| option.as_str() == "weigh"),
    };
    let size = size.as_str().parse()?;
    let repetitions = repetitions.as_str().parse()?;
    time_notes(&rt, &source, &text, size, repetitions, task)
}
