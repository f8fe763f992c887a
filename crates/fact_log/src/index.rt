// An index of the facts, kept in the links of their cells: a table of buckets by hash, with the heads in the first cells, and each cell
// linked to the one before it in its bucket.
ghost use Rattle.std.specs.Prelude.{◌≡◌, ℕ, ◌+◌, ◌-◌, ◌^◌, ◌<◌, ◌≤◌, length, Some, Decides, MatchOption};
ghost use Rattle.fact_log.specs.Index.{order, things, links, Index as IndexOf, LastOf, bucket, thing_in, link_in, bucket_in, IsIndexed, Down, Entered, Filed, Relinked, Indexed};
ghost use Rattle.cells.specs.Facts.{no_link};

use crate::links::{link, set_link};
use crate::things::{Thing, hash, thing_at};
use crate::view::Index;
use cells::{Cell, Link, ZERO};

// How many buckets so many facts have: 2 to the power of this. It doubles as often as the facts do, so that a bucket has few of them.
pub(crate) fn order(facts: usize) -> u32
    ensures value { result ≡ order facts }
    ensures bound { result < 64 }
{
    facts.max(1).ilog2()
}

// The bucket of a thing among these.
fn bucket(order: u32, thing: &Thing) -> usize
    requires { order < 64 }
    ensures value { result ≡ bucket order thing.now }
    ensures bound { result < 2 ^ order }
{
    (hash(thing) >> (63 - order)) as usize
}

// A cell is a number here: that it stands before the end is one clause, known of the number that comes, and no type.
impl Index<'_> {
    // Whether the cell is looked up by the thing.
    fn has(&self, cell: usize, thing: &Thing) -> bool
        requires { cell < self.now.end }
        ensures { Decides result (thing_in self.now cell ≡ Some thing.now) }
    {
        thing_at(&self.cells[cell], self.slot) == Some(*thing)
    }

    // The cell before this one in its bucket.
    fn previous(&self, cell: usize) -> Option<usize>
        requires range { cell < self.now.end }
        ensures { MatchOption result ((link_in self.now cell).next ≡ 0) (λ p. (0 < p) × (p ≡ (link_in self.now cell).next)) }
    {
        let next = link(&self.cells[cell], self.slot).next;
        (next != 0).then_some(next)
    }

    // The last cell of the bucket whose head stands in this cell.
    fn head(&self, cell: usize) -> Option<usize>
        requires { cell < self.now.end }
        ensures { MatchOption result ((link_in self.now cell).head ≡ 0) (λ p. (0 < p) × (p ≡ (link_in self.now cell).head)) }
    {
        let head = link(&self.cells[cell], self.slot).head;
        (head != 0).then_some(head)
    }

    // The last cell in the bucket of the thing.
    fn last_in_bucket(&self, thing: &Thing) -> Option<usize>
        requires some { self.now.base < self.now.end }
        requires indexed { IsIndexed self.now }
        ensures { LastOf (bucket_in self.now) self.now.base (bucket (order (self.now.end - self.now.base)) thing.now) self.now.end result }
    {
        self.head(self.base + bucket(order(self.end - self.base), thing))
    }

    // Down the bucket from the cell `start`: the last cell before `before` with the thing.
    fn down(&self, thing: &Thing, start: usize, before: usize) -> Option<usize>
        requires range { before ≤ self.now.end }
        requires indexed { IsIndexed self.now }
        requires start { Down self.now thing.now before start }
        ensures { LastOf (thing_in self.now) self.now.base thing.now before result }
    {
        let mut at = start;
        // A loop: the next cell is read from the one where the way stands, and may be none.
        while at >= before || !self.has(at, thing) {
            at = self.previous(at)?;
        }
        Some(at)
    }

    // The last cell before `before` with the thing.
    pub(crate) fn last_before(&self, thing: &Thing, before: usize) -> Option<usize>
        requires range { before ≤ self.now.end }
        requires indexed { IsIndexed self.now }
        ensures { LastOf (thing_in self.now) self.now.base thing.now before result }
    {
        if (self.base..self.end).contains(&before) && self.has(before, thing) {
            let start = self.previous(before)?;
            return self.down(thing, start, before);
        }
        // A guard, and no `then`: without facts there is no bucket.
        if self.base == self.end {
            return None;
        }
        let start = self.last_in_bucket(thing)?;
        self.down(thing, start, before)
    }
}

// Enters cell `n` in one index, of 2 to the power `order` buckets, which has the cells from `base` on and before it.
fn enter(cells: &mut [Cell], base: usize, n: usize, slot: usize, order: u32)
    requires range { (0 < base) × (base ≤ n) × (n < length cells.old) × (base + 2 ^ order ≤ length cells.old) }
    requires numbers { (slot < 5) × (order < 64) }
    ensures { (top : ℕ) → n < top → base + 2 ^ order ≤ top → IndexOf (things cells.old slot) (links cells.old slot) base order top n → Entered cells.old cells.new slot base order top n }
{
    // Nothing to enter; there is no value to pass on.
    let Some(thing) = thing_at(&cells[n], slot) else {
        return;
    };
    let first = base + bucket(order, &thing);
    let old = link(&cells[first], slot);
    set_link(&mut cells[first], slot, Link { head: n, ..old });
    let own = link(&cells[n], slot);
    set_link(
        &mut cells[n],
        slot,
        Link {
            next: old.head,
            ..own
        },
    );
}

// Enters cell `n` in all five.
fn file(cells: &mut [Cell], base: usize, n: usize, order: u32)
    requires range { (0 < base) × (base ≤ n) × (n < length cells.old) × (base + 2 ^ order ≤ length cells.old) }
    requires order { order < 64 }
    ensures { (top : ℕ) → n < top → base + 2 ^ order ≤ top → ((s : ℕ) → s < 5 → IndexOf (things cells.old s) (links cells.old s) base order top n) → Filed cells.old cells.new base order top (n + 1) }
{
    // The five indices; each turn writes what the next one reads.
    for slot in 0..5 {
        enter(cells, base, n, slot, order);
    }
}

// Enters all cells from `base` on and before `end` anew.
pub(crate) fn refile(cells: &mut [Cell], base: usize, end: usize)
    requires range { (0 < base) × (base ≤ end) × (end ≤ length cells.old) }
    ensures relinked { Relinked cells.old cells.new base end }
    ensures indexed { (s : ℕ) → s < 5 → Indexed cells.new s base end }
{
    // By position, since what is known of a slice that is written through `iter_mut` is its length.
    for p in base..end {
        let Cell { row, wait, .. } = cells[p];
        cells[p] = Cell { row, wait, ..ZERO };
    }
    let order = order(end - base);
    for n in base..end {
        file(cells, base, n, order);
    }
}

// Enters cell `n`, where those before it are entered: with more buckets, where it is the one that asks for more.
pub(crate) fn file_last(cells: &mut [Cell], base: usize, n: usize)
    requires range { (0 < base) × (base ≤ n) × (n < length cells.old) }
    requires indexed { (s : ℕ) → s < 5 → Indexed cells.old s base n }
    requires fresh { (s : ℕ) → s < 5 → links cells.old s n ≡ no_link }
    ensures relinked { Relinked cells.old cells.new base (n + 1) }
    ensures indexed { (s : ℕ) → s < 5 → Indexed cells.new s base (n + 1) }
{
    let now = order(n - base);
    if base < n && order(n + 1 - base) == now {
        file(cells, base, n, now);
    } else {
        refile(cells, base, n + 1);
    }
}
