// Feeding a token, and the tokens that may be fed.
ghost use Rattle.std.specs.Prelude.{ℕ, ◌<◌, List, false, replicate, Decides};
ghost use Rattle.grammar.specs.Grammar.{Grammar};
ghost use Rattle.grammar.specs.Trees.{GoesOn};
ghost use Rattle.frontier.specs.Marks.{Marks};
ghost use Rattle.area.specs.Held.{Held};
ghost use Rattle.area.specs.Contents.{InUse};
ghost use Rattle.calls.specs.Fed.{Fed, NextListed};

use crate::refusal::FeedingRefusal;
use area::Numbers;
use cells::{Cell, MOST_TOKENS};
use frontier::marked;

// The marks on the tokens with which some start tree's string goes on.
fn next_marks(cells: &[Cell], numbers: Numbers) -> [bool; 1024]
    requires { InUse cells.now numbers }
    ensures { (g : Grammar) (w : List ℕ) → Held g w cells.now numbers → Marks (GoesOn g w) (replicate 1024 false) result }
{
    // An array: fixed memory, no heap.
    let mut marks = [false; 1024];
    numbers.mark_next(cells, &mut marks);
    marks
}

// Whether some start tree's string goes on with the token.
fn goes_on(cells: &[Cell], numbers: Numbers, token: u32) -> bool
    requires held { InUse cells.now numbers }
    requires known { token < numbers.counts.tokens }
    ensures { (g : Grammar) (w : List ℕ) → Held g w cells.now numbers → Decides result (GoesOn g w token) }
{
    let marks = next_marks(cells, numbers);
    // By index: with fewer tokens than marks there is one for each known token.
    marks[token as usize]
}

// Feeds a token to the area.
pub fn feed(cells: &mut [Cell], numbers: Numbers, token: u32) -> Result<Numbers, FeedingRefusal>
    requires { InUse cells.old numbers }
    ensures { (g : Grammar) (w : List ℕ) → Held g w cells.old numbers → Fed g w token cells.old cells.new result }
{
    // Guards, in the order of the rule: each has a refusal of its own, and none is the absence of a value.
    if token >= numbers.counts.tokens {
        return Err(FeedingRefusal::UnknownToken);
    }
    if numbers.held >= MOST_TOKENS {
        return Err(FeedingRefusal::FullNote);
    }
    if !goes_on(cells, numbers, token) {
        return Err(FeedingRefusal::NoTree);
    }
    numbers
        .extend_by(cells, token)
        .ok_or(FeedingRefusal::TooShort)
}

// Writes the tokens that may follow to the front of the list, ascending, and answers how many they are: nothing where the list is too
// short for them. The list is the caller's: no heap.
pub fn next_list(cells: &[Cell], numbers: Numbers, list: &mut [u32]) -> Option<usize>
    requires { InUse cells.now numbers }
    ensures { (g : Grammar) (w : List ℕ) → Held g w cells.now numbers → NextListed g w list.old list.new result }
{
    let marks = next_marks(cells, numbers);
    marked(&marks, list)
}
