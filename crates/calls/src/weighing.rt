// Weighing a closed area.
ghost use Rattle.std.specs.Prelude.{◌≡◌, ℕ, List, length, replicate};
ghost use Rattle.grammar.specs.Grammar.{Grammar};
ghost use Rattle.cells.specs.Facts.{zero_cell};
ghost use Rattle.calls.specs.Closed.{Closed, Weighed, bound_of};

use crate::weighing_refusal::WeighingRefusal;
use algebra::Algebra;
use area::{Numbers, clear};
use cells::Cell;
use weigh::{Request, weigh};

// The greatest depth.
const MOST_DEPTH: u32 = 32;

// The sum over the start trees of height at most `depth` whose string is the tokens, where the values fit.
fn sum_in<V: Algebra>(
    cells: &[Cell],
    numbers: Numbers,
    request: &Request<'_>,
    work: &mut [u32],
) -> Result<V, WeighingRefusal>
    requires { (g : Grammar) × (w : List ℕ) × Closed g w cells.now numbers request.now.phrases }
    ensures { (g : Grammar) (w : List ℕ) → Closed g w cells.now numbers request.now.phrases → Weighed V.nought V.plus V.times V.reads V.writes g w (bound_of g request.now.phrases) request.now.depth request.now.weights.now work.old work.new result }
{
    // Guards: each has a refusal of its own.
    if !(1..=MOST_DEPTH).contains(&request.depth) {
        return Err(WeighingRefusal::BadDepth);
    }
    if request.weights.len() < numbers.counts.places as usize {
        return Err(WeighingRefusal::TooFewValues);
    }
    let categories = numbers.counts.categories as usize;
    let q = categories
        .checked_add(request.phrases)
        .ok_or(WeighingRefusal::TooFewValues)?;
    if work.len() / 2 < q {
        return Err(WeighingRefusal::TooFewValues);
    }
    let contents = numbers.contents(cells);
    let chart = contents.chart();
    Ok(weigh(&chart, request, work))
}

// Weighs the area to a depth, and sets every cell to zero.
pub fn weigh_in<V: Algebra>(
    cells: &mut [Cell],
    numbers: Numbers,
    request: &Request<'_>,
    work: &mut [u32],
) -> Result<V, WeighingRefusal>
    requires { (g : Grammar) × (w : List ℕ) × Closed g w cells.old numbers request.now.phrases }
    ensures weighed { (g : Grammar) (w : List ℕ) → Closed g w cells.old numbers request.now.phrases → Weighed V.nought V.plus V.times V.reads V.writes g w (bound_of g request.now.phrases) request.now.depth request.now.weights.now work.old work.new result }
    ensures zero { cells.new ≡ replicate (length cells.old) zero_cell }
{
    let sum = sum_in(cells, numbers, request, work);
    clear(cells);
    sum
}
