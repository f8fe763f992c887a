// The records of a packed file, each with a part of the file's bytes.
ghost use Rattle.std.specs.Prelude.{◌≡◌, ◌<◌, ◌^◌};
ghost use Rattle.records.specs.Kinds.{fault_listed};
ghost use Rattle.records.specs.Records.{viewed, after_entry, word_at, entry_at};
ghost use Rattle.std.specs.Result.{result_map_both};

use crate::kinds::{Kind, ReadFault};

// One record: where it begins, its kind, and its body, which is a part of the file's bytes.
#[derive(Clone, Copy)]
pub struct Record<'a> {
    pub offset: usize,
    pub kind: Kind,
    pub body: &'a [u8],
}

impl Record<'_> {
    // Where the next record begins.
    pub fn end(&self) -> usize
        requires { after_entry (viewed self.now) < 2 ^ 64 }
        ensures { result ≡ after_entry (viewed self.now) }
    {
        self.offset + 4 + self.body.len()
    }
}

// The number of 16 bits in two bytes, the low byte first.
pub(crate) fn word(bytes: [u8; 2]) -> u32
    ensures { result ≡ word_at bytes 0 }
{
    u32::from(u16::from_le_bytes(bytes))
}

// The record that begins at `offset`, or the fault of the bytes there.
pub fn record_at(bytes: &[u8], offset: usize) -> Result<Record<'_>, ReadFault>
    ensures { result_map_both viewed fault_listed result ≡ entry_at bytes.now offset }
{
    let past_end = ReadFault::PastEnd(offset);
    let malformed = ReadFault::Malformed(offset);
    let rest = bytes.get(offset..).ok_or(past_end)?;
    let (length, rest) = rest.split_first_chunk().ok_or(past_end)?;
    let content = rest.get(..word(*length) as usize).ok_or(past_end)?;
    let (kind, body) = content.split_first_chunk().ok_or(malformed)?;
    let kind = Kind::try_from(word(*kind)).map_err(|_| malformed)?;
    // A guard: there is no value here whose absence could be passed on.
    if !kind.fits(body.len()) {
        return Err(malformed);
    }
    Ok(Record { offset, kind, body })
}
