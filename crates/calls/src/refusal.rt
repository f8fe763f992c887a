// Why a token is not fed.
ghost use Rattle.std.specs.Prelude.{◌≡◌};
ghost use Rattle.calls.specs.Numbered.{feeding_number};

#[derive(Clone, Copy, Debug, PartialEq, Eq)]
pub enum FeedingRefusal {
    // The token is not below the token count.
    UnknownToken,
    // The most tokens are held.
    FullNote,
    // No start tree's string goes on with the token.
    NoTree,
    // The area is shorter than the cells in use.
    TooShort,
}

impl FeedingRefusal {
    // The number of the cause, as docs/REFUSALS.md fixes it.
    pub fn number(&self) -> u32
        ensures { result ≡ feeding_number self.now }
    {
        match *self {
            FeedingRefusal::UnknownToken => 9,
            FeedingRefusal::FullNote => 10,
            FeedingRefusal::NoTree => 11,
            FeedingRefusal::TooShort => 8,
        }
    }
}
