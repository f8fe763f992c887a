// The bureau's job: a file of notes, each read, and a table of how many were read in which way.
#![tactic(auto)]

mod reading;
mod table;

pub use reading::read_notes;
