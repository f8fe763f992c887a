// The lexicon layer, which lies over any source, adds words to it, and is a source again.
#![tactic(auto)]

mod lexicon_layer;

pub use lexicon_layer::{Entry, Lexicon};
