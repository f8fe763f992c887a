// The grammar that is copied. Its methods stand in files of their own, by the rows that they write. They ask the source only of
// numbers that name something, so that the 0 of their `unwrap_or(0)` is never taken: an `unwrap` would need an answer of its own at each
// of the five uses, and read no plainer. The cells are no field, and their room stays a premise of each method, since they are lent and
// written.
ghost use Rattle.soundness.specs.Heights.{LeastHeights};

use faults::{Faultless, limits};
use grammar::Source;

// The heights are the least of the grammar's categories' trees; in `∥ ∥₁`, since a category may have several trees of the least
// height.
#[derive(Drop)]
pub(crate) struct Original<'a, 'b, S: Source> {
    pub grammar: Faultless<'a, S>,
    pub heights: &'b [u32; limits::HEIGHTS],
    ghost least: { ∥ LeastHeights (S.meaning grammar.source.now) heights.now ∥₁ },
}
