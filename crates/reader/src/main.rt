// The note reader's program: what it is asked on the command line, and what it prints.
#![tactic(auto)]

mod account;
mod call;
mod opening;
mod usage;
mod words;

use call::{Call, CallError, GrammarCall, NotesCall, Word};
use grammar::Source;
use packed::Packed;
use records::ReadFault;
use soundness::check;
use sources::{Lexicon, Strike};
use std::process::ExitCode;
use std::{env, fmt, fs, io};

// What is done with a grammar, once it is read.
#[derive(Clone, Copy)]
enum Task<'a> {
    // Its account is printed.
    Account,
    // These calls are played.
    Transcript(&'a str),
    // These notes are read, to a depth.
    Notes(&'a str, u32),
}

// What a layer refused, as a line: the option of the call, its value, the refusal's number and what it means.
#[derive(Clone, Copy)]
struct RefusedOption<'a, T> {
    option: &'a str,
    value: T,
    number: u32,
    meaning: &'a str,
}

impl<T: fmt::Display> fmt::Display for RefusedOption<'_, T> {
    fn fmt<W: fmt::Write>(&self, f: &mut fmt::Formatter<W>) -> fmt::Result {
        write!(
            f,
            "{} {}: refused {}: {}",
            self.option, self.value, self.number, self.meaning
        )
    }
}

// Tells of a layer that refused something: in an account among its lines; else on standard error, so that standard output has the answers
// alone. The line is printed and never put together in memory, so that want of memory cannot keep it back.
fn tell<T: fmt::Display>(
    rt: &HostRuntime,
    task: Task<'_>,
    line: &RefusedOption<'_, T>,
) -> io::Result<()> {
    match task {
        Task::Account => println!(rt; "{line}"),
        Task::Transcript(_) | Task::Notes(_, _) => eprintln!(rt; "{line}"),
    }
}

// Marks the places that are struck. A refused mark leaves the layer as it was, and is told. (Two loops, here and in `add_all`: words and
// items differ, and one function would take five parameters.)
fn mark_all<S: Source>(
    rt: &HostRuntime,
    layer: &mut Strike<S>,
    places: &[u32],
    task: Task<'_>,
) -> io::Result<()> {
    for place in places {
        if let Err(refusal) = layer.mark(*place) {
            let line = RefusedOption {
                option: "--strike",
                value: *place,
                number: refusal.number(),
                meaning: words::STRIKE,
            };
            tell(rt, task, &line)?;
        }
    }
    Ok(())
}

// Adds the words, in their order. A refused word leaves the layer as it was, and is told.
fn add_all<S: Source>(
    rt: &HostRuntime,
    layer: &mut Lexicon<S>,
    words: &[Word],
    task: Task<'_>,
) -> io::Result<()> {
    for word in words {
        if let Err(refusal) = layer.add(word.category, word.token) {
            let line = RefusedOption {
                option: "--word",
                value: *word,
                number: refusal.number(),
                meaning: words::WORD,
            };
            tell(rt, task, &line)?;
        }
    }
    Ok(())
}

// Does it with a source: prints what it means, and whether it may be opened; plays calls; or reads notes, where it may be opened.
fn work<S: Source>(rt: &HostRuntime, source: &S, task: Task<'_>) -> anyhow::Result<ExitCode> {
    match task {
        Task::Account => {
            account::grammar_lines(rt, source)?;
            opening::lines(rt, source)?;
        }
        Task::Transcript(text) => transcript::play(rt, source, text)?,
        Task::Notes(text, depth) => {
            if let Err(fault) = check(source) {
                opening::refused(rt, fault)?;
                return Ok(ExitCode::FAILURE);
            }
            bureau::read_notes(rt, source, text, depth)?;
        }
    }
    Ok(ExitCode::SUCCESS)
}

// Does it with a file that was read, with the strikes and then the words of the call laid over it. Without words there is no lexicon
// layer, so that a function number that names nothing is printed as it stands in the file. (The layers are laid here, and marked by
// `&mut`: with words and without them the pile has two types, so that no function could answer it, and one for each layer would take
// it and give it back in a `Result`, which says no more.)
fn work_on(
    rt: &HostRuntime,
    file: Packed<'_>,
    call: &GrammarCall,
    task: Task<'_>,
) -> anyhow::Result<ExitCode> {
    let mut strike = Strike::over(file);
    mark_all(rt, &mut strike, &call.strikes, task)?;
    if call.words.is_empty() {
        return work(rt, &strike, task);
    }
    let mut pile = Lexicon::over(strike);
    add_all(rt, &mut pile, &call.words, task)?;
    work(rt, &pile, task)
}

// The line of a file that spells no grammar: a transcript has its calls' form.
fn refused_lines(rt: &HostRuntime, fault: ReadFault, task: Task<'_>) -> io::Result<()> {
    let number = fault.number();
    let offset = fault.offset();
    match task {
        Task::Transcript(_) => println!(rt; "read -> refused {number} at {offset}"),
        Task::Account | Task::Notes(_, _) => println!(rt; "refused {number} at {offset}: {fault}"),
    }
}

// Reads a packed grammar and does its task, or prints the refusal. A refusal and an unreadable file are told here, and end the
// program with status 1.
fn grammar(rt: &HostRuntime, call: &GrammarCall, task: Task<'_>) -> anyhow::Result<ExitCode> {
    let path = call.file.as_str();
    let bytes = match fs::read(rt, path) {
        Ok(bytes) => bytes,
        Err(e) => {
            eprintln!(rt; "reader: {path} cannot be read: {e}")?;
            return Ok(ExitCode::FAILURE);
        }
    };
    match Packed::read(&bytes) {
        Ok(file) => {
            if let Task::Account = task {
                account::file_lines(rt, &file)?;
            }
            work_on(rt, file, call, task)
        }
        Err(fault) => {
            refused_lines(rt, fault, task)?;
            Ok(ExitCode::FAILURE)
        }
    }
}

// Plays the calls that stand on standard input.
fn transcript(rt: &HostRuntime, call: &GrammarCall) -> anyhow::Result<ExitCode> {
    let text = io::read_to_string(rt.alloc(), rt.reader())?;
    grammar(rt, call, Task::Transcript(&text))
}

// Reads the notes of a file.
fn notes(rt: &HostRuntime, call: &NotesCall) -> anyhow::Result<ExitCode> {
    let path = call.notes.as_str();
    let text = match fs::read_to_string(rt, path) {
        Ok(text) => text,
        Err(e) => {
            eprintln!(rt; "reader: {path} cannot be read: {e}")?;
            return Ok(ExitCode::FAILURE);
        }
    };
    grammar(rt, &call.grammar, Task::Notes(&text, call.depth))
}

fn run(rt: &HostRuntime) -> anyhow::Result<ExitCode> {
    let args: Vec<String> = env::args(rt)?.skip(1).collect(rt.alloc())?;
    match call::parse(rt.alloc(), &args) {
        Ok(Call::Help) => {
            println!(rt; "{}", usage::TEXT)?;
            Ok(ExitCode::SUCCESS)
        }
        Ok(Call::Grammar(call)) => grammar(rt, &call, Task::Account),
        Ok(Call::Transcript(call)) => transcript(rt, &call),
        Ok(Call::Notes(call)) => notes(rt, &call),
        Err(CallError::Wrong) => {
            eprintln!(rt; "{}", usage::TEXT)?;
            Ok(ExitCode::FAILURE)
        }
        Err(CallError::Alloc(error)) => Err(error.into()),
    }
}

fn main(rt: HostRuntime) -> anyhow::Result<ExitCode> {
    run(&rt)
}
