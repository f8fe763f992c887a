// Which tokens may follow, and whether the whole is read, from the facts in lent cells. `Sound` of the grammar and `Stands` of the chart
// are premises and no types, for the reasons that stand at the steps and at the chart (steps/src/lib.rt, closing/src/charted.rt). That
// there are at most 200 tokens is one clause about a list that is lent.
#![tactic(auto)]

mod listing;
mod marking;
mod offers;
mod verdict;

pub use listing::{marked, marked_are_the_marks};
pub use marking::frontier;
pub use offers::offered;
pub use verdict::accepted;
