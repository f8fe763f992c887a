// Sources of grammars: a table of plain records, and two layers that lie over any source and are sources again.
#![tactic(auto)]

pub use lexicon::{Entry, Lexicon};
pub use strike::Strike;
pub use table::{ConstituentRow, FunctionRow, LayerRefusal, PlaceRow, Table};
