// The records of a packed file, one after another.
ghost use Rattle.std.specs.Prelude.{◌≡◌};
ghost use Rattle.std.specs.Iterator.{YieldsFirstBy, item_count};
ghost use Rattle.records.specs.Records.{viewed, entries_from};
ghost use Rattle.records.specs.Row.{entries_left};

use crate::records::{Record, record_at};

// The records from an offset on, up to the end of the file or to bytes that are no record.
#[derive(Clone, Copy)]
pub struct Records<'a> {
    bytes: &'a [u8],
    offset: usize,
}

// The records of a file from `offset` on.
pub fn records_from(bytes: &[u8], offset: usize) -> Records<'_>
    ensures { entries_left result ≡ entries_from bytes.now offset }
{
    Records { bytes, offset }
}

impl<'a> Iterator for Records<'a> {
    type Item = Record<'a>;

    ghost next_gives = { YieldsFirstBy viewed entries_left };

    ghost remaining = { item_count entries_left };

    fn next(&mut self) -> Option<Record<'a>> {
        let record = record_at(self.bytes, self.offset).ok()?;
        self.offset = record.end();
        Some(record)
    }
}
