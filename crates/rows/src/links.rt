// The live places of a grammar in cells.
ghost use Rattle.std.specs.Prelude.{◌≡◌};
ghost use Rattle.rows.specs.Meaning.{cells_of};
ghost use Rattle.rows.specs.Links.{Linked, place_of_cell};

use crate::counts::Counts;
use crate::held::Rows;
use crate::sorts::first_live_in;
use steps::LiveSource;

// The place whose cell this is.
fn place_of_cell(counts: Counts, cell: usize) -> Option<u32>
    ensures { result ≡ place_of_cell counts cell }
{
    let place = cell.checked_sub(counts.place_part().first)?;
    let place = u32::try_from(place).ok()?;
    (place < counts.places).then_some(place)
}

// The live places are those that the rows name.
impl LiveSource for Rows<'_> {
    ghost linked = { λ s. Linked (cells_of s) s.counts };

    fn first_live(&self, category: u32) -> Option<u32> {
        let row = self.row_in(self.counts.category_part(), category)?;
        place_of_cell(self.counts, first_live_in(row))
    }

    fn next_live(&self, place: u32) -> Option<u32> {
        let row = self.place_row(place)?;
        place_of_cell(self.counts, row.next)
    }
}
