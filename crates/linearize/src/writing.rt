// Writing a constituent.
ghost use Rattle.std.specs.Prelude.{◌≡◌, ◌+◌, ◌≤◌, length};
ghost use Rattle.grammar.specs.Trees.{Tree};
ghost use Rattle.linearize.specs.Nodes.{Table, TreeAt, constituent_of};
ghost use Rattle.linearize.specs.Writing.{Put};

use crate::nodes::{Node, argument_start, length_at};
use crate::written::Written;
use faults::limits;
use grammar::{Source, Symbol};
use steps::after_dot;

impl<S: Source> Written<'_, '_, S> {
    // Writes a constituent, counted from 1, of the tree at `i` into the output from `from` on, and answers the position after it.
    // An argument's constituent with no token is not entered, so that the time goes by the tokens and not by the tree. Six parameters:
    // the output is lent and written, the table is no field of `Written`, and the three numbers change with each call.
    pub(crate) fn write_constituent(
        &self,
        nodes: &[Node],
        i: usize,
        constituent: u32,
        output: &mut [u32],
        from: usize,
    ) -> usize
        requires table { Table (S.meaning self.now.grammar.source.now) self.now.list.now nodes.now i }
        requires tree { (t : Tree) × TreeAt (S.meaning self.now.grammar.source.now) self.now.list.now i t × (from + length (constituent_of (S.meaning self.now.grammar.source.now) t constituent) ≤ length output.old) }
        ensures { (t : Tree) → TreeAt (S.meaning self.now.grammar.source.now) self.now.list.now i t → (result ≡ from + length (constituent_of (S.meaning self.now.grammar.source.now) t constituent)) × Put (constituent_of (S.meaning self.now.grammar.source.now) t constituent) from output.old output.new }
    {
        let place = self.list[i];
        let mut at = from;
        // A loop and no chain: each turn writes to the output, from where the turn before has left off. A let-else: with no symbol
        // more, the position in hand is the answer.
        for j in 0..limits::SYMBOLS {
            let Some(symbol) = after_dot(self.grammar.source, place, constituent, j) else {
                return at;
            };
            match symbol {
                Symbol::Token(t) => {
                    output[at] = t;
                    at += 1;
                }
                Symbol::Argument(k, l) => {
                    let argument = argument_start(nodes, i, k);
                    if length_at(nodes[argument], l) > 0 {
                        at = self.write_constituent(nodes, argument, l, output, at);
                    }
                }
            }
        }
        at
    }
}
