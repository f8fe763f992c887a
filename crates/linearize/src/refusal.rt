// Why a list of place numbers is not linearized.
ghost use Rattle.std.specs.Prelude.{◌≡◌, [], ◌∷◌};
ghost use Rattle.linearize.specs.Listed.{refusal_listed};

#[derive(Clone, Copy, Debug, PartialEq, Eq)]
pub enum Unlinearized {
    // The list is too long, or writes no start tree of the grammar.
    NoTree,
    // The output is shorter than the string.
    TooShort,
}

impl Unlinearized {
    // The number of the cause, as docs/REFUSALS.md fixes it.
    pub fn number(&self) -> u32
        ensures { refusal_listed self.now ≡ result ∷ [] }
    {
        match *self {
            Unlinearized::NoTree => 14,
            Unlinearized::TooShort => 12,
        }
    }
}
