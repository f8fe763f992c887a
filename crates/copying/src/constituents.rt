// The rows of the constituents and of the symbols.
ghost use Rattle.std.specs.Prelude.{◌≡◌, ◌+◌, ◌≤◌, length, sum_by};
ghost use Rattle.grammar.specs.Grammar.{from_one};
ghost use Rattle.faults.specs.Parts.{constituents_of, symbols_of};
ghost use Rattle.soundness.specs.Totals.{constituent_total, symbol_total};
ghost use Rattle.copying.specs.Layout.{spelt, constituent_rows, symbol_rows, all_constituents, all_symbols};
ghost use Rattle.copying.specs.Written.{written};

use crate::original::Original;
use crate::writing::{write, write_rows};
use cells::{Cell, Row};
use faults::limits;
use grammar::Source;

impl<S: Source> Original<'_, '_, S> {
    // Writes the symbols of a constituent from `cell` on. The answer is the cell after them.
    fn write_symbols(
        &self,
        function: u32,
        constituent: u32,
        cells: &mut [Cell],
        cell: usize,
    ) -> usize
        requires { cell + length (symbols_of (S.meaning self.now.grammar.source.now) function constituent) ≤ length cells.old }
        ensures end { result ≡ cell + length (symbols_of (S.meaning self.now.grammar.source.now) function constituent) }
        ensures rows { cells.new ≡ written cell (spelt (symbols_of (S.meaning self.now.grammar.source.now) function constituent)) cells.old }
    {
        // Symbol `i`, counted from 1.
        let row = |i|
            ensures { result ≡ from_one (spelt (symbols_of (S.meaning self.entry.now.grammar.source.now) function constituent)) i }
        {
            self.grammar
                .source
                .symbol(function, constituent, i)
                .map(Row::Symbol)
        };
        write_rows(row, limits::SYMBOLS, cells, cell)
    }

    // Writes the constituents of a function from `cell` on, and their symbols from `first` on. The answer is the cell after the
    // symbols. Six parameters: the cells are lent and written, and the four numbers are of this one function, so that a struct of them
    // would be made for each call.
    fn write_constituents(
        &self,
        function: u32,
        count: u32,
        cells: &mut [Cell],
        cell: usize,
        first: usize,
    ) -> usize
        requires counted { count ≡ length (constituents_of (S.meaning self.now.grammar.source.now) function) }
        requires apart { cell + count ≤ first }
        requires room { first + sum_by length (constituents_of (S.meaning self.now.grammar.source.now) function) ≤ length cells.old }
        ensures end { result ≡ first + sum_by length (constituents_of (S.meaning self.now.grammar.source.now) function) }
        ensures rows { cells.new ≡ written first (symbol_rows (constituents_of (S.meaning self.now.grammar.source.now) function)) (written cell (constituent_rows first (constituents_of (S.meaning self.now.grammar.source.now) function)) cells.old) }
    {
        let mut next = first;
        // A loop and no chain: each turn writes to the cells, the symbols from where the turn before has left off.
        for l in 0..count {
            let end = self.write_symbols(function, l + 1, cells, next);
            write(
                cells,
                cell + l as usize,
                Row::Constituent(next, (end - next) as u32),
            );
            next = end;
        }
        next
    }

    // Writes the constituents of all functions from `cell` on, and their symbols from `first` on.
    pub(crate) fn write_all_constituents(&self, cells: &mut [Cell], cell: usize, first: usize)
        requires apart { cell + constituent_total (S.meaning self.now.grammar.source.now) ≡ first }
        requires room { first + symbol_total (S.meaning self.now.grammar.source.now) ≤ length cells.old }
        ensures { cells.new ≡ written first (all_symbols (S.meaning self.now.grammar.source.now).functions) (written cell (all_constituents first (S.meaning self.now.grammar.source.now).functions) cells.old) }
    {
        let mut next = cell;
        let mut symbols = first;
        // A loop and no chain, for the same reason.
        for f in 0..self.grammar.source.functions() {
            let count = self.grammar.source.constituents(f).unwrap_or(0);
            symbols = self.write_constituents(f, count, cells, next, symbols);
            next += count as usize;
        }
    }
}
