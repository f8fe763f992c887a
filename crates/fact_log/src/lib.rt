// The facts of a chart in lent cells, one after another, with an index kept inside the cells. It knows no grammar.
#![tactic(auto)]

mod facts;
mod index;
mod links;
pub mod things;
mod view;

pub use facts::{append, contains, cut, latest};
