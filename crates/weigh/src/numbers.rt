// Numbering the left sides of made rules. `Log` is a premise and no type, and the cells, `base` and `end` are no struct, as in the
// log itself (fact_log says why).
ghost use Rattle.std.specs.Prelude.{ℕ, ◌+◌, ◌<◌, ◌≤◌};
ghost use Rattle.fact_log.specs.Log.{Log};
ghost use Rattle.weigh.specs.Numbers.{NumberOf, NumberedOne, Renumbered, NumberedAll};

use cells::{Cell, Phrase, Waiting};
use closing::{Room, made_in};
use fact_log::things::{Key, Thing};

// The number of the phrase as the left side of a made rule before the cell `before`: the number that the last such rule has.
pub(crate) fn number_of(
    cells: &[Cell],
    base: usize,
    end: usize,
    phrase: Phrase,
    before: usize,
) -> Option<usize>
    requires log { (limit : ℕ) × Log cells.now base end limit }
    requires range { before ≤ end }
    ensures { NumberOf cells.now base before phrase result }
{
    let whole = Thing::Key(Key::alone(true, phrase));
    let p = fact_log::latest(cells, base, end, whole, before)?;
    cells[p].wait.left()
}

// Numbers the left side of the made rule in the cell `p`, if it holds one, where those before it have `count` left sides.
fn number_cell(cells: &mut [Cell], base: usize, end: usize, p: usize, count: usize) -> usize
    requires log { (limit : ℕ) × Log cells.old base end limit }
    requires range { (p < end) × (count ≤ p) }
    ensures { NumberedOne cells.old cells.new base p count result }
{
    let cell = cells[p];
    // No `?`: where there is no made rule the count stays as it was.
    let Some(rule) = made_in(cell.row) else {
        return count;
    };
    let known = number_of(cells, base, end, rule.left, p);
    cells[p] = Cell {
        wait: Waiting::Left(known.unwrap_or(count)),
        ..cell
    };
    if known.is_some() { count } else { count + 1 }
}

// Numbers the left sides of the made rules in the order in which they first stand in the log, and answers how many there are.
pub fn number_left_sides(cells: &mut [Cell], room: Room, end: usize) -> usize
    requires { Log cells.old room.base end room.limit }
    ensures kept { Renumbered cells.old cells.new room.base end }
    ensures few { result + room.base ≤ end }
    ensures all { NumberedAll cells.old cells.new room.base end room.limit result }
{
    let mut count = 0;
    // By cell: each is numbered from those before it, which `iter_mut` would not lend beside it.
    for p in room.base..end {
        count = number_cell(cells, room.base, end, p, count);
    }
    count
}
