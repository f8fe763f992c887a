// A grammar in lent cells, and those cells as a source of grammars again.
#![tactic(auto)]

mod counts;
mod held;
mod links;
mod sorts;

pub use counts::{Counts, grammar_cells};
pub use held::Rows;
pub use sorts::{FunctionRow, Part, PlaceRow};
