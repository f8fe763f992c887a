// The rows of the categories.
ghost use Rattle.std.specs.Prelude.{◌≡◌, ℕ, ◌≤◌, length};
ghost use Rattle.faults.specs.Limits.{most_categories};
ghost use Rattle.copying.specs.Layout.{category_rows};
ghost use Rattle.copying.specs.Places.{Firsts};
ghost use Rattle.copying.specs.Written.{written};

use crate::original::Original;
use crate::writing::write;
use cells::{Cell, Row};
use grammar::Source;

impl<S: Source> Original<'_, '_, S> {
    // Writes the categories into the first cells, each with its least height and the cell of its first live place.
    pub(crate) fn write_categories(&self, firsts: &[usize], cells: &mut [Cell])
        requires firsts { length firsts.now ≡ most_categories }
        requires room { length (S.meaning self.now.grammar.source.now).dimensions ≤ length cells.old }
        ensures { (cell : ℕ) → Firsts self.now.heights.now cell (S.meaning self.now.grammar.source.now).places firsts.now → cells.new ≡ written 0 (category_rows self.now.heights.now cell (S.meaning self.now.grammar.source.now).places 0 (S.meaning self.now.grammar.source.now).dimensions) cells.old }
    {
        // A loop over numbers: a category is the number by which the source, the heights, the links and the cells are asked.
        for category in 0..self.grammar.source.categories() {
            let c = category as usize;
            let dimension = self.grammar.source.dimension(category).unwrap_or(0);
            write(
                cells,
                c,
                Row::Category(dimension, self.heights[c], firsts[c]),
            );
        }
    }
}
