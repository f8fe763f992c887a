// Plays the sample notes with the sample grammars, and reads a file of notes. What it prints is compared with the file stdout.
#![tactic(auto)]

use cells::ZERO;
use note::{LoadingFault, load};
use packed::Packed;
use std::fs;

// Plays the calls of one file with the grammar of another.
fn play(rt: &HostRuntime, grammar: &str, calls: &str) -> anyhow::Result<()> {
    println!(rt; "{grammar}")?;
    let bytes = fs::read(rt, grammar)?;
    let text = fs::read_to_string(rt, calls)?;
    match Packed::read(&bytes) {
        Ok(file) => transcript::play(rt, &file, &text),
        Err(fault) => {
            println!(rt; "{fault}")?;
            Ok(())
        }
    }
}

// Reads the notes of one file with the grammar of another.
fn read_notes(rt: &HostRuntime, grammar: &str, notes: &str, depth: u32) -> anyhow::Result<()> {
    println!(rt; "{notes}")?;
    let bytes = fs::read(rt, grammar)?;
    let text = fs::read_to_string(rt, notes)?;
    match Packed::read(&bytes) {
        Ok(file) => bureau::read_notes(rt, &file, &text, depth),
        Err(fault) => {
            println!(rt; "{fault}")?;
            Ok(())
        }
    }
}

// Loads the worked example of a packed file, and then without its last byte.
fn cut_file(rt: &HostRuntime) -> anyhow::Result<()> {
    let bytes = fs::read(rt, "word.grammar")?;
    let mut area = [ZERO; 20];
    if let Ok(accepted) = load(&bytes, &mut area) {
        let used = accepted.cells_in_use();
        println!(rt; "word.grammar: loaded in {used} cells")?;
    }
    let (_, front) = bytes.split_last().unwrap_or((&0, &[]));
    if let Err(LoadingFault::Reading(fault)) = load(front, &mut area) {
        let number = fault.number();
        let offset = fault.offset();
        println!(rt; "word.grammar less its last byte: refused {number} at {offset}")?;
    }
    Ok(())
}

fn main(rt: HostRuntime) -> anyhow::Result<()> {
    play(&rt, "K.grammar", "K.calls")?;
    play(&rt, "D.grammar", "D.calls")?;
    play(&rt, "E.grammar", "E.calls")?;
    play(&rt, "P.grammar", "P.calls")?;
    play(&rt, "doubled.grammar", "doubled.calls")?;
    play(&rt, "nostart.grammar", "refused.calls")?;
    play(&rt, "notree.grammar", "refused.calls")?;
    read_notes(&rt, "K.grammar", "K.notes", 32)?;
    read_notes(&rt, "D.grammar", "D.notes", 4)?;
    cut_file(&rt)
}
