// Sources that know their live places: those that are filled, and each of whose argument categories has a tree.
ghost use Rattle.steps.specs.Live.{FirstLive, NextLive};

use grammar::Source;

// A source in which the live places of each category can be gone through in ascending order.
pub trait LiveSource: Source {
    // What the answers rest on: the source has marked its live places rightly.
    ghost linked: { Self → Type 0 };

    // The first live place of a category.
    fn first_live(&self, category: u32) -> Option<u32>
        requires { linked self.now }
        ensures { FirstLive (Self.Source.meaning self.now) category 0 result };

    // The next live place after a place, of the same category: none after an empty one.
    fn next_live(&self, place: u32) -> Option<u32>
        requires { linked self.now }
        ensures { NextLive (Self.Source.meaning self.now) place result };
}
