// The check before a note is made.
ghost use Rattle.std.specs.Prelude.{◌≡◌};
ghost use Rattle.note.specs.Promises.{Checked};

use area::{Numbers, OpeningFault, open_area};
use cells::Cell;
use grammar::Source;

// That a grammar was accepted: the numbers of the area that it was copied into, and the cells in use. Only a check makes one.
#[derive(Clone, Copy)]
pub struct Accepted {
    pub(crate) numbers: Numbers,
    used: usize,
}

impl Accepted {
    // The cells in use.
    pub fn cells_in_use(&self) -> usize
        ensures { result ≡ self.now.used }
    {
        self.used
    }
}

// Checks the grammar of a source, and copies it into the area where it is accepted. Refused, every cell of the area is zero.
pub fn check<S: Source>(source: &S, cells: &mut [Cell]) -> Result<Accepted, OpeningFault>
    ensures { Checked (S.meaning source.now) cells.new result }
{
    let numbers = open_area(source, cells)?;
    Ok(Accepted {
        numbers,
        used: numbers.cells_in_use(cells),
    })
}
