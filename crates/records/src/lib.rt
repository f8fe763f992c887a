// The records of packed grammar files: their kinds, reading one of them, and what stands in its body.
#![tactic(auto)]

mod body;
mod kinds;
mod records;
mod row;

pub use body::{number_at, symbol_at};
pub use kinds::{Kind, ReadFault, UnknownKind};
pub use records::{Record, record_at};
pub use row::{Records, records_from};
