// The kinds of records, and the faults of reading.
ghost use Rattle.std.specs.Prelude.{◌≡◌, Some, slice_index};
ghost use Rattle.records.specs.Kinds.{fault_listed, fault_shown, kind_number, kind_named, body_fits, number_before, may_follow};

use std::error::Error;
use std::fmt;

// What a record of a packed file is about.
#[derive(Clone, Copy, Debug, PartialEq, Eq)]
pub enum Kind {
    Head,
    Category,
    Function,
    Constituent,
    // A place that holds a production.
    Filled,
    // A place that holds none.
    Empty,
}

// A number that names no kind.
#[derive(Clone, Copy, Debug, PartialEq, Eq)]
pub struct UnknownKind(pub u32);

// Why bytes spell no grammar, with the offset of the first bad record.
#[derive(Clone, Copy, Debug, PartialEq, Eq)]
pub enum ReadFault {
    // The record runs past the end of the file.
    PastEnd(usize),
    // Its length is below 2, its kind is unknown, or its body does not fit its kind.
    Malformed(usize),
    // It stands out of order, or there is no head.
    OutOfOrder(usize),
}

impl ReadFault {
    // The number of the refusal, as docs/REFUSALS.md has it and the program prints it.
    pub fn number(self) -> u32
        ensures { result ≡ slice_index (fault_listed self) 0 }
    {
        match self {
            ReadFault::PastEnd(_) => 1,
            ReadFault::Malformed(_) => 2,
            ReadFault::OutOfOrder(_) => 3,
        }
    }

    // Where the first bad record begins.
    pub fn offset(self) -> usize
        ensures { result ≡ slice_index (fault_listed self) 1 }
    {
        match self {
            ReadFault::PastEnd(offset)
            | ReadFault::Malformed(offset)
            | ReadFault::OutOfOrder(offset) => offset,
        }
    }
}

// A fault is told in words, without its offset.
impl fmt::Display for ReadFault {
    ghost output = { λ fault. Some (fault_shown fault) };

    fn fmt<W: fmt::Write>(&self, f: &mut fmt::Formatter<W>) -> fmt::Result {
        f.write_str(match self {
            ReadFault::PastEnd(_) => "the record runs past the end of the file",
            ReadFault::Malformed(_) =>
                "the record's length is below 2, its kind is unknown, or its body does not fit its kind",
            ReadFault::OutOfOrder(_) => "the record stands out of order, or there is no head",
        })
    }
}

impl Error for ReadFault {}

// The kind's number in the file.
impl From<Kind> for u32 {
    ghost from_gives = { λ kind number. number ≡ kind_number kind };

    fn from(kind: Kind) -> u32 {
        match kind {
            Kind::Head => 1,
            Kind::Category => 2,
            Kind::Function => 3,
            Kind::Constituent => 4,
            Kind::Filled => 5,
            Kind::Empty => 6,
        }
    }
}

// The kind that a number names.
impl TryFrom<u32> for Kind {
    type Error = UnknownKind;

    ghost try_from_gives = { λ number kind. kind ≡ kind_named number };

    fn try_from(number: u32) -> Result<Kind, UnknownKind> {
        match number {
            1 => Ok(Kind::Head),
            2 => Ok(Kind::Category),
            3 => Ok(Kind::Function),
            4 => Ok(Kind::Constituent),
            5 => Ok(Kind::Filled),
            6 => Ok(Kind::Empty),
            _ => Err(UnknownKind(number)),
        }
    }
}

impl Kind {
    // Whether a body of so many bytes fits the kind.
    pub fn fits(self, len: usize) -> bool
        ensures { result ≡ body_fits self len }
    {
        match self {
            Kind::Head => len == 4,
            Kind::Category | Kind::Function => len == 2,
            Kind::Constituent => len % 4 == 0,
            Kind::Filled => len >= 4 && len % 2 == 0,
            Kind::Empty => len == 0,
        }
    }

    // Whether a record of this kind may stand after one of the kind `before`, or first.
    pub fn may_follow(self, before: Option<Kind>) -> bool
        ensures { result ≡ may_follow (number_before before) self }
    {
        match self {
            Kind::Head => before.is_none(),
            Kind::Category => matches!(before, Some(Kind::Head | Kind::Category)),
            Kind::Function => matches!(
                before,
                Some(Kind::Head | Kind::Category | Kind::Function | Kind::Constituent)
            ),
            Kind::Constituent => matches!(before, Some(Kind::Function | Kind::Constituent)),
            Kind::Filled | Kind::Empty => before.is_some(),
        }
    }
}
