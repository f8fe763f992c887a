// The rows of the places, with links through the live ones of each category.
ghost use Rattle.std.specs.Prelude.{◌≡◌, suc, ◌+◌, ◌-◌, ◌<◌, ◌≤◌, [], length, drop};
ghost use Rattle.grammar.specs.Grammar.{production_at};
ghost use Rattle.soundness.specs.Totals.{arguments_in, argument_total};
ghost use Rattle.copying.specs.Layout.{place_rows};
ghost use Rattle.copying.specs.Places.{Firsts, PlaceWritten};
ghost use Rattle.copying.specs.Written.{written};

use crate::original::Original;
use crate::writing::write;
use cells::{Cell, Row};
use grammar::Source;
use soundness::is_dead;

impl<S: Source> Original<'_, '_, S> {
    // Writes a place into its cell, where the arguments of the place end before `end`, and `firsts` has for each category the cell
    // of the first live place after this one, 0 where there is none. The answer is where the arguments begin, and `firsts` then has
    // this place too. Six parameters: the cells and `firsts` are two things lent and written, and the three numbers are of this one
    // place, so that a struct of them would be made for each call.
    fn write_place(
        &self,
        place: u32,
        cells: &mut [Cell],
        cell: usize,
        end: usize,
        firsts: &mut [usize],
    ) -> usize
        requires room { cell < length cells.old }
        requires part { arguments_in (production_at (S.meaning self.now.grammar.source.now) place) ≤ end }
        requires linked { Firsts self.now.heights.now (suc cell) (drop (place + 1) (S.meaning self.now.grammar.source.now).places) firsts.old }
        ensures { PlaceWritten (S.meaning self.now.grammar.source.now) self.now.heights.now place cell end cells.old cells.new firsts.new result }
    {
        // A let-else: an empty place is not passed on as nothing, but has a row of its own.
        let Some(filled) = self.grammar.source.place(place) else {
            write(cells, cell, Row::Empty);
            return end;
        };
        let result = filled.result as usize;
        let count = self.grammar.source.arity(filled.function).unwrap_or(0);
        let first = end - count as usize;
        write(
            cells,
            cell,
            Row::Place(filled.result, filled.function, first, count, firsts[result]),
        );
        let heights = self.heights;
        if !is_dead(self.grammar.source, heights, place) {
            firsts[result] = cell;
        }
        first
    }

    // Writes the places from `cell` on, last to first, where the arguments end before `end`. At first `firsts` has no place, and
    // then for each category the cell of its first live place, 0 where there is none.
    pub(crate) fn write_places(
        &self,
        cells: &mut [Cell],
        cell: usize,
        end: usize,
        firsts: &mut [usize],
    )
        requires room { cell + length (S.meaning self.now.grammar.source.now).places ≤ length cells.old }
        requires parts { argument_total (S.meaning self.now.grammar.source.now) ≤ end }
        requires none { Firsts self.now.heights.now 0 [] firsts.old }
        ensures rows { cells.new ≡ written cell (place_rows self.now.heights.now cell (end - argument_total (S.meaning self.now.grammar.source.now)) (S.meaning self.now.grammar.source.now).places) cells.old }
        ensures linked { Firsts self.now.heights.now cell (S.meaning self.now.grammar.source.now).places firsts.new }
    {
        let mut first = end;
        // A loop and no chain: each turn writes to the cells, and its arguments end where those of the place after begin.
        for p in (0..self.grammar.source.places()).rev() {
            first = self.write_place(p, cells, cell + p as usize, first, firsts);
        }
    }
}
