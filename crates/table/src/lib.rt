// A table of plain records as a source of grammars; and what the layers over sources share with it: the parts of rows,
// and the refusal of a layer.
#![tactic(auto)]

mod layer_refusal;
mod record_table;
mod rows;

pub use layer_refusal::LayerRefusal;
pub use record_table::{ConstituentRow, FunctionRow, PlaceRow, Table};
