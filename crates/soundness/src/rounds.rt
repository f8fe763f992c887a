// The least height of a tree of each category, found by rounds.
ghost use Rattle.std.specs.Prelude.{◌≡◌, ◌<◌, length, take};
ghost use Rattle.faults.specs.Limits.{most_arguments, most_categories};
ghost use Rattle.soundness.specs.Heights.{LeastHeights};
ghost use Rattle.faults.specs.Parts.{arguments_of};
ghost use Rattle.soundness.specs.Rounds.{late_in, Finds, Begun, Round};
ghost use Rattle.faults.specs.Tests.{some_of};

use faults::{Faultless, any_argument, limits};
use grammar::Source;

// Whether the category was not found before this round. The heights hold 0 for what was not found yet, as in `least_heights`.
fn late(category: u32, heights: &[u32], round: u32) -> bool
    ensures { result ≡ late_in heights.now round category }
{
    heights
        .get(category as usize)
        .is_none_or(|found| *found == 0 || *found >= round)
}

// Whether one of the first arguments of a place was not found before this round.
fn arguments_late<S: Source>(source: &S, place: u32, heights: &[u32], round: u32) -> bool
    ensures { result ≡ some_of (late_in heights.now round) (take most_arguments (arguments_of (S.meaning source.now) place)) }
{
    any_argument(
        source,
        place,
        limits::ARGUMENTS,
        |category| late(category, heights, round),
    )
}

// The category that is found at a place in this round.
fn found_at<S: Source>(source: &S, place: u32, heights: &[u32], round: u32) -> Option<usize>
    ensures { Finds (S.meaning source.now) heights.now round place result }
{
    let c = source.place(place)?.result as usize;
    let found = *heights.get(c)?;
    (found == 0 && !arguments_late(source, place, heights, round)).then_some(c)
}

// One round over all places: notes each category that is found in it, and answers whether there was any.
fn run_round<S: Source>(grammar: &Faultless<'_, S>, heights: &mut [u32], round: u32) -> bool
    requires len { length heights.old ≡ most_categories }
    requires counts { 0 < round }
    requires begun { Begun (S.meaning grammar.now.source.now) round heights.old }
    ensures { Round (S.meaning grammar.now.source.now) round heights.old heights.new result }
{
    let mut any = false;
    // A loop: a chain whose closure writes the heights needs an invariant over its captures, and is no shorter.
    for p in 0..grammar.source.places() {
        if let Some(c) = found_at(grammar.source, p, heights, round) {
            heights[c] = round;
            any = true;
        }
    }
    any
}

// For each category the least height of a tree of it, and 0 where there is none: plain numbers, since they are copied into the
// note's cells. A round that finds nothing is the last.
pub(crate) fn least_heights<S: Source>(grammar: &Faultless<'_, S>) -> [u32; limits::HEIGHTS]
    ensures least { LeastHeights (S.meaning grammar.now.source.now) result }
    ensures len { length result ≡ most_categories }
{
    let mut heights = [0; limits::HEIGHTS];
    // A loop, as in `run_round`: each round writes the heights.
    for round in 1..=limits::CATEGORIES {
        if !run_round(grammar, &mut heights, round) {
            return heights;
        }
    }
    heights
}
