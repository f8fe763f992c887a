// Looking through the records of a file.
ghost use Rattle.std.specs.Prelude.{◌≡◌, min, length, take, IfSome};
ghost use Rattle.std.specs.List.{slice_get};
ghost use Rattle.std.specs.Option.{option_map};
ghost use Rattle.walk.specs.Groups.{belongs, grouped};
ghost use Rattle.records.specs.Meaning.{constituents_first, head_number, most, number_of};
ghost use Rattle.records.specs.Records.{viewed, entries_from, Within};

use records::{Kind, Record, number_at, records_from};

// The records that questions count through.
#[derive(Clone, Copy)]
pub enum Group {
    // Those of one kind.
    Only(Kind),
    // Filled and empty places.
    Places,
}

impl Group {
    pub(crate) fn has(self, kind: Kind) -> bool
        ensures { result ≡ belongs self kind }
    {
        match self {
            Group::Only(one) => kind == one,
            Group::Places => matches!(kind, Kind::Filled | Kind::Empty),
        }
    }
}

// Record `index` of a group, counted from 0, of those from an offset on, among the most that a list may hold.
pub(crate) fn find_from(bytes: &[u8], start: usize, group: Group, index: u32) -> Option<Record<'_>>
    ensures { option_map viewed result ≡ slice_get (take most (grouped group (entries_from bytes.now start))) index }
{
    records_from(bytes, start)
        .filter(|record| group.has(record.kind))
        .take(u32::MAX as usize)
        .nth(index as usize)
}

// Record `index` of a group, counted from 0, among the most that a list may hold.
pub fn find(bytes: &[u8], group: Group, index: u32) -> Option<Record<'_>>
    ensures inside { IfSome result (λ x. Within bytes.now (viewed x)) }
    ensures value { option_map viewed result ≡ slice_get (take most (grouped group (entries_from bytes.now 0))) index }
{
    find_from(bytes, 0, group, index)
}

// The first number of record `index` of a group, counted from 0, among the most that a list may hold. It is 0 where the body has no such
// number, as `number_of` has it: a record that fits its kind has it.
pub fn first_number(bytes: &[u8], group: Group, index: u32) -> Option<u32>
    ensures { result ≡ option_map (λ e. number_of e 0) (slice_get (take most (grouped group (entries_from bytes.now 0))) index) }
{
    find(bytes, group, index).map(|record| number_at(record.body, 0).unwrap_or(0))
}

// How many records a group has.
pub fn count(bytes: &[u8], group: Group) -> usize
    ensures { result ≡ length (grouped group (entries_from bytes.now 0)) }
{
    records_from(bytes, 0)
        .filter(|next| group.has(next.kind))
        .count()
}

// A number, up to the most that a list may hold.
pub(crate) fn up_to_most(n: usize) -> u32
    ensures { result ≡ min most n }
{
    u32::try_from(n).unwrap_or(u32::MAX)
}

// How many records a group has, up to the most that a list may hold.
pub fn count_up_to_most(bytes: &[u8], group: Group) -> u32
    ensures { result ≡ min most (length (grouped group (entries_from bytes.now 0))) }
{
    up_to_most(count(bytes, group))
}

// Constituent `index`, counted from 0, of those that stand right at `from`.
pub fn find_constituent(bytes: &[u8], from: usize, index: u32) -> Option<Record<'_>>
    ensures { option_map viewed result ≡ slice_get (constituents_first (entries_from bytes.now from)) index }
{
    records_from(bytes, from)
        .take_while(|next| next.kind == Kind::Constituent)
        .nth(index as usize)
}

// How many constituents stand right at `from`, up to the most that a list may hold.
pub fn count_constituents(bytes: &[u8], from: usize) -> u32
    ensures { result ≡ min most (length (constituents_first (entries_from bytes.now from))) }
{
    let n = records_from(bytes, from)
        .take_while(|record| record.kind == Kind::Constituent)
        .count();
    up_to_most(n)
}

// Number `index` of the first record. It is 0 where there is no such record or its body has no such number, as `head_number` of the
// meaning has it.
pub fn head_number(bytes: &[u8], index: usize) -> u32
    ensures { result ≡ head_number (entries_from bytes.now 0) index }
{
    records_from(bytes, 0)
        .next()
        .and_then(|head| number_at(head.body, index))
        .unwrap_or(0)
}
