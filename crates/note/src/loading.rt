// Loading: a packed file is read, and its grammar checked for an open note.
ghost use Rattle.std.specs.Prelude.{◌≡◌};
ghost use Rattle.note.specs.Promises.{Loads, loading_number};
ghost use Rattle.note.specs.declared.loading.LoadingFault.TheVariants.{Reading, Opening};

use crate::accepted::{Accepted, check};
use area::{OpeningFault, clear};
use cells::Cell;
use packed::Packed;
use records::ReadFault;

// Why a packed file is not loaded. A fault of reading stands in it whole, with its number and its offset.
#[derive(Clone, Copy, Debug, PartialEq, Eq)]
pub enum LoadingFault {
    Reading(ReadFault),
    Opening(OpeningFault),
}

impl From<ReadFault> for LoadingFault {
    ghost from_gives = { λ fault e. e ≡ Reading fault };

    fn from(fault: ReadFault) -> LoadingFault {
        LoadingFault::Reading(fault)
    }
}

impl From<OpeningFault> for LoadingFault {
    ghost from_gives = { λ fault e. e ≡ Opening fault };

    fn from(fault: OpeningFault) -> LoadingFault {
        LoadingFault::Opening(fault)
    }
}

impl LoadingFault {
    // The number of the cause, as docs/REFUSALS.md fixes it.
    pub fn number(&self) -> u32
        ensures { result ≡ loading_number self.now }
    {
        match self {
            LoadingFault::Reading(fault) => fault.number(),
            LoadingFault::Opening(fault) => fault.number(),
        }
    }
}

// Reads a packed file, and checks its grammar for the area. Refused, every cell of the area is zero.
pub fn load(bytes: &[u8], cells: &mut [Cell]) -> Result<Accepted, LoadingFault>
    ensures { Loads bytes.now cells.new result }
{
    clear(cells);
    let file = Packed::read(bytes)?;
    let accepted = check(&file, cells)?;
    Ok(accepted)
}
