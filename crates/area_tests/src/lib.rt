// An area that is opened and fed, what it tells then; and tests on sample grammars.
#![tactic(auto)]

ghost use Rattle.std.specs.Prelude.{[], IfSome, Decides};
ghost use Rattle.grammar.specs.Grammar.{Grammar};
ghost use Rattle.grammar.specs.Trees.{Complete};
ghost use Rattle.area.specs.Held.{Held};

use area::{Numbers, open_area};
use cells::{Cell, MOST_TOKENS};
use grammar::Source;

// What an area tells of its tokens: the cells in use, which of the tokens 0 to 3 may follow, and whether they are complete.
#[derive(Clone, Copy)]
pub struct Told {
    pub used: usize,
    // An array: fixed memory, no heap.
    pub next: [bool; 4],
    pub complete: bool,
}

// Feeds the tokens to an area that holds none: none where one is not known, is the 65th or has no room.
pub fn fed(cells: &mut [Cell], numbers: Numbers, tokens: &[u32]) -> Option<Numbers>
    requires { (g : Grammar) × Held g [] cells.old numbers }
    ensures { (g : Grammar) → Held g [] cells.old numbers → IfSome result (Held g tokens.now cells.new) }
{
    let mut reached = numbers;
    // A loop: a chain whose closure writes the cells needs an invariant over its captures, and is no shorter.
    for &token in tokens {
        if reached.held >= MOST_TOKENS || token >= reached.counts.tokens {
            return None;
        }
        reached = reached.extend_by(cells, token)?;
    }
    Some(reached)
}

// What the area tells after these tokens: none where it is not opened or does not take them.
pub fn told_after<S: Source>(source: &S, cells: &mut [Cell], tokens: &[u32]) -> Option<Told>
    ensures { IfSome result (λ t. Decides t.complete (Complete (S.meaning source.now) tokens.now)) }
{
    let opened = open_area(source, cells).ok()?;
    let numbers = fed(cells, opened, tokens)?;
    let mut next = [false; 4];
    numbers.mark_next(cells, &mut next);
    let complete = numbers.is_complete(cells);
    Some(Told {
        used: numbers.end.saturating_add(numbers.held),
        next,
        complete,
    })
}

#[cfg(test)]
mod tests;
