// A note: what a foreman types at the clock, word by word, read by a grammar in a lent area of cells. Opening is a check and then a
// making; an open note is fed and asked; closing makes a closed note of it, which is weighed. Both notes are moved types.
#![tactic(auto)]

pub mod accepted;
mod asking;
mod closed;
pub mod loading;
mod open;
pub mod question;
pub mod short_list;
mod theorems;
pub mod whole;

pub use accepted::{Accepted, check};
pub use closed::ClosedNote;
pub use loading::{LoadingFault, load};
pub use open::OpenNote;
pub use question::{Answer, Question};
pub use short_list::ListTooShort;
pub use theorems::answers_are_one;
pub use whole::{RunFault, Told, run};
