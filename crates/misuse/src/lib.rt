// A note used as it is meant to be used. The edits in misuse/, at the top of the repository, each use it otherwise, and are refused.
#![tactic(auto)]

ghost use Rattle.std.specs.Prelude.{◌≡◌, length, replicate};
ghost use Rattle.cells.specs.Facts.{zero_cell};
ghost use Rattle.misuse.specs.WeighedNote.{NoteWeighed};

pub mod unweighed;

use algebra::Algebra;
use cells::Cell;
use grammar::Source;
use note::{OpenNote, check};
pub use unweighed::Unweighed;

// Opens a note, feeds it the tokens in order, up to the first refusal, closes it and weighs it to a depth: hands back the area, with
// every cell zero, and the sum over the start trees whose string is the tokens, or the refusal of the call that was refused.
pub fn weigh_note<'a, V: Algebra, S: Source>(
    source: &S,
    area: &'a mut [Cell],
    tokens: &[u32],
    depth: u32,
    weights: &[u32],
    work: &mut [u32],
) -> (&'a mut [Cell], Result<V, Unweighed>)
    ensures area { result.0.ghost_name ≡ area.entry.ghost_name }
    ensures zero { result.0.now ≡ replicate (length area.entry.now) zero_cell }
    ensures weighed { NoteWeighed V.nought V.plus V.times V.reads V.writes (S.meaning source.now) (length area.entry.now) tokens.now depth weights.now work.old work.new result.1 }
{
    let accepted = match check(source, area) {
        Ok(accepted) => accepted,
        Err(fault) => return (area, Err(fault.into())),
    };
    let mut note = OpenNote::make(area, accepted);
    for token in tokens {
        if let Err(refusal) = note.feed(*token) {
            return (note.end(), Err(refusal.into()));
        }
    }
    let closed = note.close();
    let (area, sum) = closed.weigh(depth, weights, work);
    (area, sum.map_err(Unweighed::from))
}
