// Reading a list of place numbers from the right, as trees.
ghost use Rattle.std.specs.Prelude.{◌≡◌, suc, ◌<◌, ◌≤◌, List, length, slice_index, is_some};
ghost use Rattle.grammar.specs.Trees.{Tree};
ghost use Rattle.faults.specs.Parts.{arguments_of};
ghost use Rattle.linearize.specs.Nodes.{Table};
ghost use Rattle.linearize.specs.Reading.{TreesAt, made_at, Taken, NodeRead, TableRead, StartRead};

use crate::nodes::Node;
use crate::written::Written;
use faults::limits;
use grammar::Source;

impl<S: Source> Written<'_, '_, S> {
    // Whether the place at position `i` of the list makes the category.
    fn makes(&self, i: usize, category: u32) -> bool
        ensures { result ≡ made_at (S.meaning self.now.grammar.source.now) self.now.list.now i category }
    {
        self.list
            .get(i)
            .and_then(|place| self.grammar.source.place(*place))
            .is_some_and(|filled| filled.result == category)
    }

    // The position after the arguments of the place at `i`, if the list goes on with trees of their categories.
    fn arguments_end(&self, nodes: &[Node], i: usize) -> Option<usize>
        requires range { i < length self.now.list.now }
        requires table { Table (S.meaning self.now.grammar.source.now) self.now.list.now nodes.now (suc i) }
        requires trees { (trees : List Tree) × TreesAt (S.meaning self.now.grammar.source.now) self.now.list.now (suc i) trees }
        ensures { Taken (S.meaning self.now.grammar.source.now) self.now.list.now (arguments_of (S.meaning self.now.grammar.source.now) (slice_index self.now.list.now i)) (suc i) result }
    {
        let place = self.list[i];
        let mut at = i + 1;
        // A loop and no `try_fold`: that `at` is in the table is known only once the place there makes the category. A let-else: with
        // no argument more, the position in hand is the answer.
        for k in 0..limits::ARGUMENTS {
            let Some(category) = self.grammar.source.argument(place, k + 1) else {
                return Some(at);
            };
            if !self.makes(at, category) {
                return None;
            }
            at = nodes[at].end;
        }
        Some(at)
    }

    // The node of position `i`, before which no node is known: nothing where the list from there on writes no trees.
    fn read_node(&self, nodes: &[Node], i: usize) -> Option<Node>
        requires range { i < length self.now.list.now }
        requires table { Table (S.meaning self.now.grammar.source.now) self.now.list.now nodes.now (suc i) }
        requires trees { (trees : List Tree) × TreesAt (S.meaning self.now.grammar.source.now) self.now.list.now (suc i) trees }
        ensures { NodeRead (S.meaning self.now.grammar.source.now) self.now.list.now i result }
    {
        self.grammar.source.place(self.list[i])?;
        let end = self.arguments_end(nodes, i)?;
        Some(Node {
            end,
            first: self.constituent_length(nodes, i, 1),
            second: self.constituent_length(nodes, i, 2),
            third: self.constituent_length(nodes, i, 3),
        })
    }

    // Fills the table, if the list writes trees.
    fn read_nodes(&self, nodes: &mut [Node]) -> Option<()>
        requires room { length self.now.list.now ≤ length nodes.old }
        ensures { TableRead (S.meaning self.now.grammar.source.now) self.now.list.now nodes.new (is_some result) }
    {
        // From the right, by index: each node is made of those after it in the same table.
        for i in (0..self.list.len()).rev() {
            let node = self.read_node(nodes, i)?;
            nodes[i] = node;
        }
        Some(())
    }

    // Fills the table, if the list writes a start tree: it is one tree alone, of the start category.
    pub(crate) fn read_start(&self, nodes: &mut [Node]) -> Option<()>
        requires room { length self.now.list.now ≤ length nodes.old }
        ensures { StartRead (S.meaning self.now.grammar.source.now) self.now.list.now nodes.new (is_some result) }
    {
        self.read_nodes(nodes)?;
        (self.makes(0, self.grammar.source.start()) && nodes[0].end == self.list.len()).then_some(
            (),
        )
    }
}
