// The rows of the arguments.
ghost use Rattle.std.specs.Prelude.{◌≡◌, ◌+◌, ◌≤◌, length};
ghost use Rattle.grammar.specs.Grammar.{from_one};
ghost use Rattle.faults.specs.Parts.{arguments_of};
ghost use Rattle.soundness.specs.Totals.{argument_total};
ghost use Rattle.copying.specs.Layout.{argument_rows, all_arguments};
ghost use Rattle.copying.specs.Written.{written};

use crate::original::Original;
use crate::writing::write_rows;
use cells::{Cell, Row};
use faults::limits;
use grammar::Source;

impl<S: Source> Original<'_, '_, S> {
    // Writes the arguments of a place from `cell` on. The answer is the cell after them.
    fn write_arguments(&self, place: u32, cells: &mut [Cell], cell: usize) -> usize
        requires { cell + length (arguments_of (S.meaning self.now.grammar.source.now) place) ≤ length cells.old }
        ensures end { result ≡ cell + length (arguments_of (S.meaning self.now.grammar.source.now) place) }
        ensures rows { cells.new ≡ written cell (argument_rows (arguments_of (S.meaning self.now.grammar.source.now) place)) cells.old }
    {
        // Argument `i`, counted from 1.
        let row = |i|
            ensures { result ≡ from_one (argument_rows (arguments_of (S.meaning self.entry.now.grammar.source.now) place)) i }
        { self.grammar.source.argument(place, i).map(Row::Argument) };
        write_rows(row, limits::ARGUMENTS, cells, cell)
    }

    // Writes the arguments of all places from `cell` on.
    pub(crate) fn write_all_arguments(&self, cells: &mut [Cell], cell: usize)
        requires { cell + argument_total (S.meaning self.now.grammar.source.now) ≤ length cells.old }
        ensures { cells.new ≡ written cell (all_arguments (S.meaning self.now.grammar.source.now).places) cells.old }
    {
        let mut next = cell;
        // A loop and no chain: each turn writes to the cells, from where the turn before has left off.
        for p in 0..self.grammar.source.places() {
            next = self.write_arguments(p, cells, next);
        }
    }
}
