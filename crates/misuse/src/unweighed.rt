// Why a note is not weighed.
ghost use Rattle.std.specs.Prelude.{◌≡◌};
ghost use Rattle.misuse.specs.declared.unweighed.Unweighed.TheVariants.{Opening, Feeding, Weighing};

use area::OpeningFault;
use calls::{FeedingRefusal, WeighingRefusal};

// The refusal of the call that was refused, whole.
#[derive(Clone, Copy, Debug, PartialEq, Eq)]
pub enum Unweighed {
    Opening(OpeningFault),
    Feeding(FeedingRefusal),
    Weighing(WeighingRefusal),
}

impl From<OpeningFault> for Unweighed {
    ghost from_gives = { λ fault e. e ≡ Opening fault };

    fn from(fault: OpeningFault) -> Unweighed {
        Unweighed::Opening(fault)
    }
}

impl From<FeedingRefusal> for Unweighed {
    ghost from_gives = { λ refusal e. e ≡ Feeding refusal };

    fn from(refusal: FeedingRefusal) -> Unweighed {
        Unweighed::Feeding(refusal)
    }
}

impl From<WeighingRefusal> for Unweighed {
    ghost from_gives = { λ refusal e. e ≡ Weighing refusal };

    fn from(refusal: WeighingRefusal) -> Unweighed {
        Unweighed::Weighing(refusal)
    }
}
