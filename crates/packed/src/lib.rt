// Packed grammar files: reading one, and the file as a source of grammars.
#![tactic(auto)]

mod file;

pub use file::Packed;
pub use records::{Kind, ReadFault, Record, record_at};
