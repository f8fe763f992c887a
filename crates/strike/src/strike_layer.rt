// A layer that empties places of the source below it.
ghost use Rattle.std.specs.Prelude.{◌≡◌, length};

pub mod questions;

// The places that can be marked are those below this number.
const MARKS: usize = 512;

// The source below, and a mark for each place that is struck out.
#[derive(Drop)]
pub struct Strike<S> {
    source: S,
    // An array: fixed memory, no heap.
    marks: [bool; MARKS],
    ghost whole: { length marks ≡ 512 },
}
