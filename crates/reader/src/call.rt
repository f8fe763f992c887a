// The command line.
use std::alloc::{AllocError, AllocFailed, Global};
use std::fmt;
use std::num::ParseIntError;
use std::str::FromStr;

// An entry of the lexicon layer, `--word C:T`: `Entry` with its words, as `FromStr` and `Display` can't be given to another crate's type.
#[derive(Clone, Copy)]
pub(crate) struct Word {
    pub category: u32,
    pub token: u32,
}

// The depth to which readings are counted, if none is given: the greatest.
const DEPTH: u32 = 32;

// A grammar file and the layers that are laid over it.
#[derive(Drop)]
pub(crate) struct GrammarCall {
    pub file: String,
    pub strikes: Vec<u32>,
    pub words: Vec<Word>,
}

// The bureau's job: the notes of a file, with a grammar, to a depth.
#[derive(Drop)]
pub(crate) struct NotesCall {
    pub grammar: GrammarCall,
    pub notes: String,
    pub depth: u32,
}

#[derive(Drop)]
pub(crate) enum Call {
    Help,
    Grammar(GrammarCall),
    Transcript(GrammarCall),
    Notes(NotesCall),
}

// Why the words of the command line give no call.
#[derive(Clone, Copy)]
pub(crate) enum CallError {
    // They are not as the usage says.
    Wrong,
    Alloc(AllocError),
}

impl From<ParseIntError> for CallError {
    fn from(_: ParseIntError) -> CallError {
        CallError::Wrong
    }
}

impl From<AllocError> for CallError {
    fn from(error: AllocError) -> CallError {
        CallError::Alloc(error)
    }
}

impl<T: Drop> From<AllocFailed<T>> for CallError {
    fn from(failed: AllocFailed<T>) -> CallError {
        CallError::Alloc(failed.into())
    }
}

// A word is written `C:T`.
impl FromStr for Word {
    type Err = CallError;

    fn from_str(text: &str) -> Result<Word, CallError> {
        let (category, token) = text.split_once(':').ok_or(CallError::Wrong)?;
        Ok(Word {
            category: category.parse()?,
            token: token.parse()?,
        })
    }
}

impl fmt::Display for Word {
    fn fmt<W: fmt::Write>(&self, f: &mut fmt::Formatter<W>) -> fmt::Result {
        write!(f, "{}:{}", self.category, self.token)
    }
}

impl GrammarCall {
    // Takes up one option with its value.
    fn take_option(&mut self, name: &str, value: &str) -> Result<(), CallError> {
        match name {
            "--strike" => self.strikes.push(value.parse()?)?,
            "--word" => self.words.push(value.parse()?)?,
            _ => return Err(CallError::Wrong),
        }
        Ok(())
    }
}

// A file, and options that each have a value.
fn grammar_call(heap: Global, args: &[String]) -> Result<GrammarCall, CallError> {
    let (file, options) = args.split_first().ok_or(CallError::Wrong)?;
    let mut call = GrammarCall {
        file: file.clone()?,
        strikes: Vec::new(heap),
        words: Vec::new(heap),
    };
    for option in options.chunks(2) {
        // The last chunk may have one word only: a pattern of two, which has no Option to pass on.
        let [name, value] = option else {
            return Err(CallError::Wrong);
        };
        call.take_option(name.as_str(), value.as_str())?;
    }
    Ok(call)
}

// A depth that readings may be counted to.
fn depth(text: &str) -> Result<u32, CallError> {
    let depth = text.parse()?;
    if !(1..=DEPTH).contains(&depth) {
        return Err(CallError::Wrong);
    }
    Ok(depth)
}

// A grammar file, a file of notes, and options that each have a value.
fn notes_call(heap: Global, args: &[String]) -> Result<NotesCall, CallError> {
    let [file, notes, options @ ..] = args else {
        return Err(CallError::Wrong);
    };
    let mut call = NotesCall {
        grammar: GrammarCall {
            file: file.clone()?,
            strikes: Vec::new(heap),
            words: Vec::new(heap),
        },
        notes: notes.clone()?,
        depth: DEPTH,
    };
    for option in options.chunks(2) {
        let [name, value] = option else {
            return Err(CallError::Wrong);
        };
        match name.as_str() {
            "--depth" => call.depth = depth(value.as_str())?,
            other => call.grammar.take_option(other, value.as_str())?,
        }
    }
    Ok(call)
}

// What the words of the command line ask for.
pub(crate) fn parse(heap: Global, args: &[String]) -> Result<Call, CallError> {
    let (command, rest) = args.split_first().ok_or(CallError::Wrong)?;
    match command.as_str() {
        "help" => Ok(Call::Help),
        "grammar" => Ok(Call::Grammar(grammar_call(heap, rest)?)),
        "transcript" => Ok(Call::Transcript(grammar_call(heap, rest)?)),
        "notes" => Ok(Call::Notes(notes_call(heap, rest)?)),
        _ => Err(CallError::Wrong),
    }
}
