// Closing the facts in lent cells under the steps of the chart.
#![tactic(auto)]

mod adding;
mod asking;
mod charted;
mod joining;
mod looking;
mod predicting;
mod turning;

pub use asking::rows_in;
pub use charted::Chart;
pub use looking::{item_in, made_in};
use rows::Counts;

// Where facts may lie in a slice of cells: from cell `base` on and before cell `limit`.
#[derive(Clone, Copy)]
pub struct Room {
    pub base: usize,
    pub limit: usize,
}

// What stays the same while facts are added: the numbers of the grammar in the cells, the tokens, and where the facts may lie. Its methods
// add facts to cells where the facts end before cell `end`; they answer where the facts end then, and nothing where there was no room for
// all. So where there is nothing to add they answer the end as it was, and `?` would not say that. The cells and `end` stand beside a run,
// as parameters, since each call changes both. `ReadyTo`, and of questions alone `Spread` and `Sound`, are premises and no type: the cells
// change under the same numbers. That a cell lies between `base` and `end` is one clause about a plain number.
#[derive(Clone, Copy)]
pub struct Run<'t> {
    pub counts: Counts,
    pub tokens: &'t [u32],
    pub room: Room,
}
