// Why a grammar may not be opened.
ghost use Rattle.std.specs.Prelude.{◌≡◌, Some, slice_index};
ghost use Rattle.faults.specs.Listed.{thing_listed, fault_listed, thing_of, ToldApart};
ghost use Rattle.faults.specs.Shown.{thing_shown, fault_shown};

use std::error::Error;
use std::fmt;

// What a grammar has a limited number of, in the order in which the counts are checked.
#[derive(Clone, Copy, Debug, PartialEq, Eq)]
pub enum Counted {
    Tokens,
    Categories,
    Functions,
    Places,
}

impl Counted {
    pub(crate) const ALL: [Counted; 4] = [
        Counted::Tokens,
        Counted::Categories,
        Counted::Functions,
        Counted::Places,
    ];
}

// What a fault is found at.
#[derive(Clone, Copy, Debug, PartialEq, Eq)]
pub enum Thing {
    Count(Counted),
    Category(u32),
    Start,
    Function(u32),
    Place(u32),
}

#[derive(Clone, Copy, Debug, PartialEq, Eq)]
pub enum Fault {
    // Over a limit, or a dimension that is 0.
    OverLimit(Thing),
    // A number that names nothing.
    NamesNothing(Thing),
    // Parts that do not fit one another.
    DoesNotFit(Thing),
    NoStartTree,
}

// Things and faults are told apart by the lists that stand for them: the case's number, then its values.
pub fn faults_are_told_apart()
    ensures { ToldApart }
{}

impl Thing {
    // The number of the thing among those of its sort, as docs/REFUSALS.md fixes it: a count's in the order of `Counted`, and the
    // start's is 0.
    pub fn number(&self) -> u32
        ensures { result ≡ slice_index (thing_listed self.now) 1 }
    {
        match *self {
            Thing::Count(counted) => counted as u32,
            Thing::Category(n) | Thing::Function(n) | Thing::Place(n) => n,
            Thing::Start => 0,
        }
    }

    // The number of its sort, in the order in which the sorts are checked, as docs/REFUSALS.md fixes it.
    pub fn sort(&self) -> u32
        ensures { result ≡ slice_index (thing_listed self.now) 0 }
    {
        match *self {
            Thing::Count(_) => 0,
            Thing::Category(_) => 1,
            Thing::Start => 2,
            Thing::Function(_) => 3,
            Thing::Place(_) => 4,
        }
    }
}

impl Fault {
    // The number of the cause, as docs/REFUSALS.md fixes it.
    pub fn number(&self) -> u32
        ensures { result ≡ slice_index (fault_listed self.now) 0 }
    {
        match *self {
            Fault::OverLimit(_) => 4,
            Fault::NamesNothing(_) => 5,
            Fault::DoesNotFit(_) => 6,
            Fault::NoStartTree => 7,
        }
    }

    // What the fault is found at: nothing where there is no start tree.
    pub fn thing(&self) -> Option<Thing>
        ensures { result ≡ thing_of self.now }
    {
        match *self {
            Fault::OverLimit(x) | Fault::NamesNothing(x) | Fault::DoesNotFit(x) => Some(x),
            Fault::NoStartTree => None,
        }
    }
}

// A thing is written as its sort; its number is `number`.
impl fmt::Display for Thing {
    ghost output = { λ x. Some (thing_shown x) };

    fn fmt<W: fmt::Write>(&self, f: &mut fmt::Formatter<W>) -> fmt::Result {
        f.write_str(match *self {
            Thing::Count(_) => "count",
            Thing::Category(_) => "category",
            Thing::Start => "start",
            Thing::Function(_) => "function",
            Thing::Place(_) => "place",
        })
    }
}

// A fault is written as its cause, and not the thing that it is found at.
impl fmt::Display for Fault {
    ghost output = { λ x. Some (fault_shown x) };

    fn fmt<W: fmt::Write>(&self, f: &mut fmt::Formatter<W>) -> fmt::Result {
        f.write_str(match *self {
            Fault::OverLimit(_) => "over a limit, or of dimension 0",
            Fault::NamesNothing(_) => "it names something that is not there",
            Fault::DoesNotFit(_) => "its parts do not fit one another",
            Fault::NoStartTree => "the start category has no tree",
        })
    }
}

impl Error for Fault {}
