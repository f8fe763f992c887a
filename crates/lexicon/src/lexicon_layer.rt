// A layer that adds words to the source below it.
ghost use Rattle.std.specs.Prelude.{◌≤◌};
ghost use Rattle.arrayvec.specs.ArrayVec.{array_vec_len};

pub mod questions;

use arrayvec::ArrayVec;

// A word: a token, and the category that it is to be of.
#[derive(Clone, Copy, Debug, Default, PartialEq, Eq)]
pub struct Entry {
    pub category: u32,
    pub token: u32,
}

// So many entries can be added.
const ENTRIES: usize = 64;

// The source below, and the entries that were added, in their order.
#[derive(Drop)]
pub struct Lexicon<S> {
    source: S,
    entries: ArrayVec<Entry, ENTRIES>,
    ghost whole: { array_vec_len entries ≤ 64 },
}
