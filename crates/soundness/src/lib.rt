// The check before a grammar is opened: its first fault, the want of a start tree, or its shape.
#![tactic(auto)]

mod dead;
pub mod opening;
mod rounds;
mod totals;

pub use dead::{has_tree, is_dead, tree_heights};
pub use opening::{Shape, check};
