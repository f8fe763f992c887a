// The rows of the functions.
ghost use Rattle.std.specs.Prelude.{◌≡◌, ◌+◌, ◌≤◌, length};
ghost use Rattle.soundness.specs.Totals.{constituent_total};
ghost use Rattle.copying.specs.Layout.{function_rows};
ghost use Rattle.copying.specs.Written.{written};

use crate::original::Original;
use crate::writing::write;
use cells::{Cell, Row};
use grammar::Source;

impl<S: Source> Original<'_, '_, S> {
    // Writes the functions from `cell` on; their constituents stand from `first` on.
    pub(crate) fn write_functions(&self, cells: &mut [Cell], cell: usize, first: usize)
        requires room { cell + length (S.meaning self.now.grammar.source.now).functions ≤ length cells.old }
        requires parts { first + constituent_total (S.meaning self.now.grammar.source.now) ≤ length cells.old }
        ensures { cells.new ≡ written cell (function_rows first (S.meaning self.now.grammar.source.now).functions) cells.old }
    {
        let mut next = first;
        // A loop and no chain: each turn writes to the cells, and its row says where the constituents of the functions before end.
        for f in 0..self.grammar.source.functions() {
            let arity = self.grammar.source.arity(f).unwrap_or(0);
            let count = self.grammar.source.constituents(f).unwrap_or(0);
            write(cells, cell + f as usize, Row::Function(arity, next, count));
            next += count as usize;
        }
    }
}
