// The strike layer, which lies over any source, empties places of it, and is a source again.
#![tactic(auto)]

mod strike_layer;

pub use strike_layer::Strike;
