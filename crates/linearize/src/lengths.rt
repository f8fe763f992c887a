// How long a constituent is.
ghost use Rattle.std.specs.Prelude.{◌≡◌, suc, length};
ghost use Rattle.grammar.specs.Trees.{Tree};
ghost use Rattle.linearize.specs.Nodes.{Table, TreeAt, constituent_of, length_told};

use crate::nodes::{Node, symbol_length};
use crate::written::Written;
use faults::limits;
use grammar::Source;
use steps::after_dot;

impl<S: Source> Written<'_, '_, S> {
    // The length of a constituent, counted from 1, of the tree at `i`, up to `usize::MAX`.
    pub(crate) fn constituent_length(&self, nodes: &[Node], i: usize, constituent: u32) -> usize
        requires table { Table (S.meaning self.now.grammar.source.now) self.now.list.now nodes.now (suc i) }
        requires tree { (t : Tree) × TreeAt (S.meaning self.now.grammar.source.now) self.now.list.now i t }
        ensures { (t : Tree) → TreeAt (S.meaning self.now.grammar.source.now) self.now.list.now i t → result ≡ length_told (length (constituent_of (S.meaning self.now.grammar.source.now) t constituent)) }
    {
        let place = self.list[i];
        let mut total: usize = 0;
        // A loop and no fold: what `symbol_length` requires is known of the symbols of this constituent, and not of every symbol. A
        // let-else: with no symbol more, the total in hand is the answer.
        for j in 0..limits::SYMBOLS {
            let Some(symbol) = after_dot(self.grammar.source, place, constituent, j) else {
                return total;
            };
            total = total.saturating_add(symbol_length(nodes, i, symbol));
        }
        total
    }
}
