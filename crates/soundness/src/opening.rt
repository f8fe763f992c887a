// The check before a grammar is opened.
ghost use Rattle.std.specs.Result.{MatchResult};
ghost use Rattle.soundness.specs.Opening.{Accepted, Refused};

use crate::dead::has_tree;
use crate::rounds::least_heights;
use crate::totals::{argument_total, constituent_total, symbol_total};
use faults::{Fault, Faultless, limits};
use grammar::Source;

// What is known of a grammar that may be opened: its counts, all its constituents, symbols and arguments, and for each category
// the least height of a tree of it, 0 where there is none: a plain number, since the heights are copied into the note's cells; and
// an array and no `ArrayVec`: all 64 are told, 0 past the categories, as `LeastHeights` speaks of every number. The eight numbers before it are those of `Counts` of the crate `rows`: they
// are no struct in here, since this is what opening answers to its caller, field by field, in a crate below that one.
#[derive(Clone, Copy, Debug)]
pub struct Shape {
    pub tokens: u32,
    pub start: u32,
    pub categories: u32,
    pub functions: u32,
    pub constituents: u32,
    pub symbols: u32,
    pub places: u32,
    pub arguments: u32,
    pub heights: [u32; limits::HEIGHTS],
}

// Whether the grammar of the source may be opened: its shape, or its first fault.
pub fn check<S: Source>(source: &S) -> Result<Shape, Fault>
    ensures { MatchResult result (Accepted (S.meaning source.now)) (Refused (S.meaning source.now)) }
{
    let grammar = Faultless::of(source)?;
    let heights = least_heights(&grammar);
    let start = source.start();
    if !has_tree(&heights, start) {
        return Err(Fault::NoStartTree);
    }
    Ok(Shape {
        tokens: source.tokens(),
        start,
        categories: source.categories(),
        functions: source.functions(),
        constituents: constituent_total(&grammar),
        symbols: symbol_total(&grammar),
        places: source.places(),
        arguments: argument_total(&grammar),
        heights,
    })
}
