// A catalogue of a group of records: where they begin, so that a question need not look through the file.
ghost use Rattle.std.specs.Prelude.{◌≡◌, min, length, take, IfSome};
ghost use Rattle.std.specs.List.{slice_get};
ghost use Rattle.std.specs.Option.{option_map};
ghost use Rattle.walk.specs.Groups.{grouped};
ghost use Rattle.records.specs.Meaning.{most, number_of};
ghost use Rattle.records.specs.Records.{viewed, entries_from, Within};

use crate::seek::{Group, find_from, up_to_most};
use records::{Record, number_at, record_at};

// So many records are listed: as many as a grammar within the limits has functions, or places.
pub const LISTED: usize = 512;

// Where the first records of a group begin, and how many records the group has.
#[derive(Clone, Copy)]
pub struct Catalogue {
    // An array: fixed memory, no heap.
    offsets: [usize; LISTED],
    count: usize,
    ghost whole: { length offsets ≡ 512 },
}

impl Catalogue {
    ghost use Rattle.walk.specs.Catalogue.{Catalogued, counted};

    // The catalogue of a group of a file's records.
    pub fn of(bytes: &[u8], group: Group) -> Catalogue
        ensures { Catalogued group bytes.now result }
    {
        let mut offsets = [0; LISTED];
        let mut count = 0;
        let mut offset = 0;
        while let Ok(record) = record_at(bytes, offset) {
            if group.has(record.kind) {
                if count < LISTED {
                    offsets[count] = offset;
                }
                count += 1;
            }
            offset = record.end();
        }
        Catalogue { offsets, count }
    }

    // Record `index` of the group, counted from 0, among the most that a list may hold. One that is not listed is looked for from the last
    // one that is.
    pub fn find<'a>(&self, bytes: &'a [u8], group: Group, index: u32) -> Option<Record<'a>>
        requires { Catalogued group bytes.now self.now }
        ensures inside { IfSome result (λ x. Within bytes.now (viewed x)) }
        ensures value { option_map viewed result ≡ slice_get (take most (grouped group (entries_from bytes.now 0))) index }
    {
        if index >= self.count_up_to_most() {
            return None;
        }
        match self.offsets.get(index as usize) {
            Some(&offset) => record_at(bytes, offset).ok(),
            None => {
                const LAST: usize = LISTED - 1;
                find_from(bytes, self.offsets[LAST], group, index - LAST as u32)
            }
        }
    }

    // The first number of record `index` of the group, counted from 0, among the most that a list may hold. It is 0 where the body has no
    // such number, as `number_of` has it: a record that fits its kind has it.
    pub fn first_number(&self, bytes: &[u8], group: Group, index: u32) -> Option<u32>
        requires { Catalogued group bytes.now self.now }
        ensures { result ≡ option_map (λ e. number_of e 0) (slice_get (take most (grouped group (entries_from bytes.now 0))) index) }
    {
        self.find(bytes, group, index)
            .map(|record| number_at(record.body, 0).unwrap_or(0))
    }

    // How many records the group has, up to the most that a list may hold.
    pub fn count_up_to_most(&self) -> u32
        ensures { result ≡ min most (counted self.now) }
    {
        up_to_most(self.count)
    }
}
