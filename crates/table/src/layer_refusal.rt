// Why a layer refuses a mark or an entry.
ghost use Rattle.std.specs.Prelude.{◌≡◌, [], ◌∷◌};
ghost use Rattle.table.specs.Listed.{refusal_listed};

// It is no `Display`: a mark and a word that are refused are told in different words, which only the caller knows.
#[derive(Clone, Copy, Debug, PartialEq, Eq)]
pub enum LayerRefusal {
    // The inner table of the layer has no room for it.
    NoRoom,
}

impl LayerRefusal {
    // The number of the cause, as docs/REFUSALS.md fixes it.
    pub fn number(&self) -> u32
        ensures { refusal_listed self.now ≡ result ∷ [] }
    {
        match self {
            LayerRefusal::NoRoom => 15,
        }
    }
}
