// Walking through the records of a packed file: reading them all, finding and counting them, and listing where those of a group begin.
#![tactic(auto)]

mod catalogue;
mod seek;
mod whole;

pub use catalogue::{Catalogue, LISTED};
pub use seek::{
    Group, count, count_constituents, count_up_to_most, find, find_constituent, first_number,
    head_number,
};
pub use whole::read_records;
