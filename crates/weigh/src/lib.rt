// Numbering the phrases of a closed note, and the sum over its trees in any algebra.
#![tactic(auto)]

mod numbers;
mod products;
mod rounds;
mod table;
mod weighing;

pub use numbers::number_left_sides;
pub use weighing::{Request, weigh};
