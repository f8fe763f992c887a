// What is asked of an open note, and what is answered.
use crate::short_list::ListTooShort;
use calls::FeedingRefusal;
use linearize::Unlinearized;

// A question to an open note. Feeding is among them, though it may alter the note.
#[derive(Clone, Copy)]
pub enum Question<'a> {
    // Feeds a token.
    Feed(u32),
    // The tokens that may follow, in a list with room for so many.
    Next(usize),
    // Whether the tokens are some start tree's string.
    Verdict,
    // The string of the start tree that the list of places writes, in an output with room for so many tokens.
    Linearize(&'a [u32], usize),
}

// The answer to a question of the same name.
#[derive(Drop)]
pub enum Answer {
    // The cells in use then.
    Fed(Result<usize, FeedingRefusal>),
    Next(Result<Vec<u32>, ListTooShort>),
    // Complete, or not.
    Verdict(bool),
    Linearized(Result<Vec<u32>, Unlinearized>),
}
