// The limits of a grammar, and the first fault of a source.
#![tactic(auto)]

mod faultless;
mod first;
pub mod limits;
pub mod refusal;
mod scans;
mod things;

pub use faultless::Faultless;
pub use first::first_fault;
pub use refusal::{Counted, Fault, Thing, faults_are_told_apart};
pub use scans::any_argument;
