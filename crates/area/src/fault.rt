// Why an area is not opened.
ghost use Rattle.std.specs.Prelude.{◌≡◌};
ghost use Rattle.area.specs.declared.fault.OpeningFault.TheVariants.{Unsound};
ghost use Rattle.area.specs.FaultNumbers.{opening_number};

use faults::Fault;

#[derive(Clone, Copy, Debug, PartialEq, Eq)]
pub enum OpeningFault {
    // The grammar is refused.
    Unsound(Fault),
    // The area is shorter than the cells in use for no tokens.
    TooShort,
}

impl From<Fault> for OpeningFault {
    ghost from_gives = { λ fault e. e ≡ Unsound fault };

    fn from(fault: Fault) -> OpeningFault {
        Self::Unsound(fault)
    }
}

impl OpeningFault {
    // The number of the cause, as docs/REFUSALS.md fixes it.
    pub fn number(&self) -> u32
        ensures { result ≡ opening_number self.now }
    {
        match *self {
            OpeningFault::Unsound(fault) => fault.number(),
            OpeningFault::TooShort => 8,
        }
    }
}
