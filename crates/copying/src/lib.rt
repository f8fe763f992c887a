// A grammar copied into lent cells.
#![tactic(auto)]

ghost use Rattle.std.specs.Prelude.{◌≤◌, length};
ghost use Rattle.chart.specs.Chart.{grammar_cells};
ghost use Rattle.soundness.specs.Opening.{Accepted};
ghost use Rattle.copying.specs.Copied.{Copied};

mod arguments;
mod categories;
mod constituents;
mod functions;
mod original;
mod places;
mod writing;

use cells::Cell;
use faults::{Faultless, limits};
use grammar::Source;
use original::Original;
use soundness::Shape;

// Copies an accepted grammar into the first cells: its rows, with links through the live places of each category.
pub fn copy<S: Source>(source: &S, shape: &Shape, cells: &mut [Cell])
    requires accepted { Accepted (S.meaning source.now) shape.now }
    requires room { grammar_cells (S.meaning source.now) ≤ length cells.old }
    ensures { Copied (S.meaning source.now) shape.now.heights cells.old cells.new }
{
    let functions = shape.categories as usize;
    let places = functions + shape.functions as usize;
    let constituents = places + shape.places as usize;
    let symbols = constituents + shape.constituents as usize;
    let arguments = symbols + shape.symbols as usize;
    let end = arguments + shape.arguments as usize;
    // An array: fixed memory, no heap. A 0 stands for no place, as in the rows that the links are written to.
    let mut firsts = [0; limits::HEIGHTS];
    let original = Original {
        grammar: Faultless { source },
        heights: &shape.heights,
    };
    original.write_functions(cells, functions, constituents);
    original.write_places(cells, places, end, &mut firsts);
    original.write_all_constituents(cells, constituents, symbols);
    original.write_all_arguments(cells, arguments);
    original.write_categories(&firsts, cells);
}
