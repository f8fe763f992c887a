// A transcript: calls of notes, one to a line, each printed with its answer, for other programs to compare.
#![tactic(auto)]

mod call;
mod playing;

pub use playing::play;
