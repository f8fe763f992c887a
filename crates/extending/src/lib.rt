// The chart of no tokens, and of one token more, in lent cells; where there is no room, the cells are as they were. What is required
// of the cells and the tokens are premises and no type: the cells are written to.
#![tactic(auto)]

mod opening;
mod whole;

pub use whole::{begin, extend};
