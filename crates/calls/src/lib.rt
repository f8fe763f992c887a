// What is asked of an area, each call with its refusals: feeding, the tokens that may follow, linearizing, closing and weighing.
#![tactic(auto)]

// They are functions that take an area's numbers, and not methods of them, as the numbers are a type of another crate. What the cells
// hold (`InUse`, `Closed`) is a premise of each and no type, for the reason that stands at the numbers.
pub mod closed;
mod feeding;
pub mod refusal;
mod theorems;
mod weighing;
pub mod weighing_refusal;

pub use closed::{Closing, close_in, linearize_in};
pub use feeding::{feed, next_list};
pub use refusal::FeedingRefusal;
pub use theorems::answers_are_one;
pub use weighing::weigh_in;
pub use weighing_refusal::WeighingRefusal;
