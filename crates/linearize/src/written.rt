// A list of place numbers beside the grammar by which it is read. Its methods stand in files of their own, by what they do.
use faults::Faultless;
use grammar::Source;

// The list is read as trees of the grammar. The table of its nodes is no field, since it is written while the list is read: so what is
// known of the table, `Table` and the trees that begin at a position, stays a premise of the methods that read it.
#[derive(Drop)]
pub(crate) struct Written<'a, 'b, S: Source> {
    pub grammar: Faultless<'a, S>,
    pub list: &'b [u32],
}
