// The nodes of a list of place numbers, one for each number.
ghost use Rattle.std.specs.Prelude.{◌≡◌, ◌<◌, length};
ghost use Rattle.linearize.specs.Nodes.{length_at, argument_start, Reached, symbol_length, SymbolReached};

use grammar::Symbol;

// What is known of the tree that begins at a number: the position after its last number, and the lengths of its constituents,
// up to `usize::MAX`; 0 for a constituent that it has not. Three fields and no array: in a clause an array is a list of any length.
#[derive(Clone, Copy, Default)]
pub struct Node {
    pub end: usize,
    pub first: usize,
    pub second: usize,
    pub third: usize,
}

// The length of a constituent, counted from 1. One that the tree has not has no symbol: the 0 is its length, and not a sign for none.
pub(crate) fn length_at(node: Node, constituent: u32) -> usize
    ensures { result ≡ length_at node constituent }
{
    match constituent {
        1 => node.first,
        2 => node.second,
        3 => node.third,
        _ => 0,
    }
}

// The position at which argument `k`, counted from 1, of the tree at `i` begins: its arguments stand one after another.
pub(crate) fn argument_start(nodes: &[Node], i: usize, k: u32) -> usize
    requires range { i < length nodes.now }
    requires reached { Reached nodes.now i k }
    ensures { result ≡ argument_start nodes.now i k }
{
    let mut at = i + 1;
    // A loop and no fold: that `at` is in the table is known of each of these positions, and not of every number.
    for j in 1..k {
        at = nodes[at].end;
    }
    at
}

// The length of a symbol's string in the tree at `i`.
pub(crate) fn symbol_length(nodes: &[Node], i: usize, symbol: Symbol) -> usize
    requires range { i < length nodes.now }
    requires reached { SymbolReached nodes.now i symbol }
    ensures { result ≡ symbol_length nodes.now i symbol }
{
    match symbol {
        Symbol::Token(_) => 1,
        Symbol::Argument(k, l) => length_at(nodes[argument_start(nodes, i, k)], l),
    }
}
