// Which categories have a tree, and which places no tree can use.
ghost use Rattle.std.specs.Prelude.{◌≡◌, nat_lt, slice_index};
ghost use Rattle.std.specs.Option.{MatchOption};
ghost use Rattle.faults.specs.Sound.{Sound};
ghost use Rattle.grammar.specs.Grammar.{Grammar};
ghost use Rattle.soundness.specs.Dead.{TreeTold, DeadTold};
ghost use Rattle.soundness.specs.Heights.{LeastHeights};

use crate::rounds::least_heights;
use faults::{Faultless, any_argument, limits};
use grammar::Source;

// The least height of a tree of each category, 0 where it has none; absent where the grammar has a fault. It is there also where
// only the start tree is wanting.
pub fn tree_heights<S: Source>(source: &S) -> Option<[u32; limits::HEIGHTS]>
    ensures { MatchOption result (Sound (S.meaning source.now) → ⊥) (λ hs. Sound (S.meaning source.now) × LeastHeights (S.meaning source.now) hs) }
{
    let grammar = Faultless::of(source).ok()?;
    Some(least_heights(&grammar))
}

// Whether a category has a tree, by the least heights: 0 stands for none, as their meaning, `LeastHeights`, has it.
pub fn has_tree(heights: &[u32], category: u32) -> bool
    ensures value { result ≡ nat_lt 0 (slice_index heights.now category) }
    ensures told { (g : Grammar) → LeastHeights g heights.now → TreeTold g category result }
{
    heights
        .get(category as usize)
        .is_some_and(|height| *height > 0)
}

// Whether a place is dead: it is filled, and some argument category has no tree.
pub fn is_dead<S: Source>(source: &S, heights: &[u32], place: u32) -> bool
    ensures { Sound (S.meaning source.now) → LeastHeights (S.meaning source.now) heights.now → DeadTold (S.meaning source.now) place result }
{
    any_argument(
        source,
        place,
        limits::ARGUMENTS,
        |category| !has_tree(heights, category),
    )
}
