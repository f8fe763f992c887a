// What is weighed, and where its values lie.
use closing::Chart;

// Where the facts lie, from cell `base` on and before cell `end`, and how many working values a row of them has: one for each
// category, and one for each of the numbered phrases. `base` and `end` are the chart's: the definitions read all four as one value,
// with no source to ask how many categories there are.
#[derive(Clone, Copy)]
pub(crate) struct Table {
    pub(crate) base: usize,
    pub(crate) end: usize,
    pub(crate) categories: usize,
    pub(crate) phrases: usize,
}

// What stays the same while values are summed: the chart, where the values of its phrases lie, and each place's weight. Its methods read
// and write the working values, two rows of them. `TwoRows` is a premise of theirs since the values are written, and `ReadyCells`,
// `ReadyToWeigh` and the source's links are premises as `Stands` is (closing/src/charted.rt).
#[derive(Drop)]
pub(crate) struct Weighing<'a, S> {
    pub(crate) chart: &'a Chart<'a, S>,
    pub(crate) table: Table,
    pub(crate) weights: &'a [u32],
}
