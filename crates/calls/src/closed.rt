// Linearizing in an area, and closing it.
ghost use Rattle.std.specs.Prelude.{ℕ, List};
ghost use Rattle.grammar.specs.Grammar.{Grammar};
ghost use Rattle.chart.specs.Chart.{grammar_cells};
ghost use Rattle.linearize.specs.Linearizes.{Linearizes};
ghost use Rattle.area.specs.Held.{Held};
ghost use Rattle.area.specs.Contents.{InUse};
ghost use Rattle.calls.specs.Closed.{Closes};
ghost use Rattle.weigh.specs.Numbers.{Renumbered};

use area::Numbers;
use cells::Cell;
use linearize::{Unlinearized, linearize};
use weigh::number_left_sides;

// Writes the string of the start tree that the list writes.
pub fn linearize_in(
    cells: &[Cell],
    numbers: Numbers,
    list: &[u32],
    output: &mut [u32],
) -> Result<usize, Unlinearized>
    requires { InUse cells.now numbers }
    ensures { (g : Grammar) (w : List ℕ) → Held g w cells.now numbers → Linearizes g list.now output.old output.new result }
{
    linearize(&numbers.source(cells), list, output)
}

// What closing answers: how many left sides of made rules there are, and the bound q on heights, which counts the categories too.
#[derive(Clone, Copy)]
pub struct Closing {
    pub phrases: usize,
    pub bound: usize,
}

// Closes the area: numbers the left sides of the made rules, and changes nothing else in it.
pub fn close_in(cells: &mut [Cell], numbers: Numbers) -> Closing
    requires { InUse cells.old numbers }
    ensures closes { (g : Grammar) (w : List ℕ) → Held g w cells.old numbers → Closes g w cells.new numbers result }
    ensures kept { (g : Grammar) (w : List ℕ) → Held g w cells.old numbers → Renumbered cells.old cells.new (grammar_cells g) numbers.end }
{
    let room = numbers.room(cells);
    let phrases = number_left_sides(cells, room, numbers.end);
    Closing {
        phrases,
        bound: numbers.counts.categories as usize + phrases,
    }
}
