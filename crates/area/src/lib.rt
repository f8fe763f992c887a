// The memory of a note: a grammar, tokens and the facts of their chart, in lent cells.
#![tactic(auto)]

mod answers;
pub mod contents;
mod extending_by;
pub mod fault;
pub mod numbers;
mod opening;
mod theorems;
mod tokens;

pub use contents::Contents;
pub use fault::OpeningFault;
pub use numbers::Numbers;
pub use opening::open_area;
pub use theorems::{contents_are_one, too_short_is_counted};
pub use tokens::{clear, held_tokens, read_tokens};
