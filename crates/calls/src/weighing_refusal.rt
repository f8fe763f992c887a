// Why a closed note is not weighed.
ghost use Rattle.std.specs.Prelude.{◌≡◌};
ghost use Rattle.calls.specs.WeighingNumbers.{weighing_number};

#[derive(Clone, Copy, Debug, PartialEq, Eq)]
pub enum WeighingRefusal {
    // The depth is not from 1 to 32.
    BadDepth,
    // There are fewer weights than places, or too few working values.
    TooFewValues,
}

impl WeighingRefusal {
    // The number of the cause, as docs/REFUSALS.md fixes it.
    pub fn number(&self) -> u32
        ensures { result ≡ weighing_number self.now }
    {
        match *self {
            WeighingRefusal::BadDepth => 13,
            WeighingRefusal::TooFewValues => 12,
        }
    }
}
