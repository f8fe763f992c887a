// Why a next list is not told.
ghost use Rattle.std.specs.Prelude.{◌≡◌};

// The list has fewer entries than there are tokens that may follow.
#[derive(Clone, Copy, Debug, PartialEq, Eq)]
pub struct ListTooShort;

impl ListTooShort {
    // The number of the cause, as docs/REFUSALS.md fixes it.
    pub fn number(&self) -> u32
        ensures { result ≡ 12 }
    {
        12
    }
}
