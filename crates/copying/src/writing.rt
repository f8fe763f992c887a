// Rows written into cells.
ghost use Rattle.std.specs.Prelude.{◌≡◌, ◌+◌, ◌<◌, ◌≤◌, List, length, slice_set};
ghost use Rattle.cells.specs.declared.Row.{Row as RowOf};
ghost use Rattle.copying.specs.Written.{plain, written, Answers};

use cells::{Cell, Row, ZERO};

pub(crate) fn write(cells: &mut [Cell], cell: usize, row: Row)
    requires { cell < length cells.old }
    ensures { cells.new ≡ slice_set cells.old cell (plain row) }
{
    cells[cell] = Cell { row, ..ZERO };
}

// Writes the rows that `row` answers for 1, 2 and so on, from `cell` on, up to the first that it does not answer, where it answers
// no more than `most`. The answer is the cell after them.
pub(crate) fn write_rows<F: Fn(u32) -> Option<Row>>(
    row: F,
    most: u32,
    cells: &mut [Cell],
    cell: usize,
) -> usize
    requires callable { F.IsAlwaysCallable row }
    requires room { (rows : List RowOf) × Answers (F.post row) rows × (length rows ≤ most) × (cell + length rows ≤ length cells.old) }
    ensures { (rows : List RowOf) → Answers (F.post row) rows → length rows ≤ most → (result ≡ cell + length rows) × (cells.new ≡ written cell rows cells.old) }
{
    // A loop over numbers: over `(1..=most).map_while(row)` the answer, the cell after the last row, would be counted by hand beside it.
    // A let-else: where no row is answered, the cell in hand is the answer.
    for i in 0..most {
        let Some(next) = row(i + 1) else {
            return cell + i as usize;
        };
        write(cells, cell + i as usize, next);
    }
    cell + most as usize
}
