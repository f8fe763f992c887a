// What the facts are looked up by: each fact by itself, and by up to four keys. The indices are numbers (view.rt says why): 0 of the
// facts themselves, 1 to 3 of the constituents by their own numbers, 4 of phrases alone and of items that are due.
ghost use Rattle.std.specs.Prelude.{◌≡◌, ◌^◌, ◌<◌};
ghost use Rattle.grammar.specs.Grammar.{from_one};
ghost use Rattle.cells.specs.Facts.{list_of};
ghost use Rattle.fact_log.specs.Things.{thing_at, alone, waiting, PartKey, waiting_for, awaited_by, made_from, slot_of, mixed, packed, span_packed, phrase_hashed, rule_hashed, fact_hashed, key_hashed, hash_of};

use cells::{Cell, Fact, Item, Phrase, Rule, Span, Waiting};

// A key of a fact: an item has the phrase that it waits for, with the constituent and its end; a made rule has each phrase that
// it was made from, with the constituent read last and its start. Each has its phrase alone too, with constituent 0 and start 0.
// `made` and the zeros stay beside the phrase, and are no enum of four keys: all keys are compared and hashed by the same fields. And
// constituent 0 and start 0 stay numbers, since the definitions of the index and of the hash (`slot_of`, `hash_of`) read them so.
#[derive(Clone, Copy, PartialEq, Eq)]
pub struct Key {
    pub made: bool,
    pub phrase: Phrase,
    pub constituent: u32,
    pub start: u8,
}

// What a fact is looked up by.
#[derive(Clone, Copy, PartialEq, Eq)]
pub enum Thing {
    Fact(Fact),
    Key(Key),
    // An item that moves on, if it does, when there are so many tokens.
    Due(u32),
}

impl Key {
    // The key of a phrase alone.
    pub fn alone(made: bool, phrase: Phrase) -> Key
        ensures { result ≡ alone made phrase }
    {
        Key {
            made,
            phrase,
            constituent: 0,
            start: 0,
        }
    }

    // The key for constituent `s` of a phrase, which an item waits for at `k`, or a made rule has read from `k` on.
    pub fn waiting(made: bool, phrase: Phrase, s: u32, k: u8) -> Key
        ensures { result ≡ waiting made phrase s k }
    {
        Key {
            made,
            phrase,
            constituent: s,
            start: k,
        }
    }

    // The key for constituent `s` of a phrase that has it read: the phrase with it unread, the constituent, and its start.
    pub fn part(made: bool, phrase: Phrase, s: u32) -> Option<Key>
        ensures { PartKey made phrase s result }
    {
        let (start, _) = phrase.spans.at(s)?.read()?;
        let spans = phrase.spans.with(s, Span::Unread);
        Some(Key::waiting(made, Phrase { spans, ..phrase }, s, start))
    }
}

// The key in one index of an item that waits for constituent `part` of the phrase `awaited` at `end`.
fn waiting(awaited: Option<Phrase>, part: u32, end: u8, slot: usize) -> Option<Thing>
    ensures { result ≡ waiting_for awaited part end slot }
{
    let phrase = awaited?;
    if slot == 4 {
        return Some(Thing::Key(Key::alone(false, phrase)));
    }
    (slot == part as usize).then_some(Thing::Key(Key::waiting(false, phrase, part, end)))
}

// What an item that waits so is looked up by in one index.
fn awaited(item: Item, wait: Waiting, slot: usize) -> Option<Thing>
    ensures { result ≡ awaited_by item wait slot }
{
    // By cases: each kind of waiting has keys of its own, or none.
    match wait {
        Waiting::Idle | Waiting::Left(_) => None,
        Waiting::Part(argument, part) => waiting(
            item.rule.arguments.at(argument),
            part,
            item.end,
            slot,
        ),
        Waiting::Until(tokens) => (slot == 4).then_some(Thing::Due(tokens)),
    }
}

// The key in one index of a made rule with this left side.
fn made_from(left: Phrase, slot: u32) -> Option<Thing>
    ensures { result ≡ made_from left (from_one (list_of left.spans) slot) slot }
{
    if slot == 4 {
        return Some(Thing::Key(Key::alone(true, left)));
    }
    Key::part(true, left, slot).map(Thing::Key)
}

// What the cell is looked up by in one of the five indices.
#[tactic(auto, unfolding(crate::specs::Things::thing_at))]
pub(crate) fn thing_at(cell: &Cell, slot: usize) -> Option<Thing>
    ensures { result ≡ thing_at cell.now slot }
{
    let fact = cell.row.fact()?;
    match fact {
        _ if slot == 0 => Some(Thing::Fact(fact)),
        Fact::Item(item) => awaited(item, cell.wait, slot),
        Fact::Made(rule) if slot <= 4 => made_from(rule.left, slot as u32),
        // No index: what a cell is looked up by is told of every number.
        Fact::Made(_) => None,
    }
}

// The index in which a thing is looked up.
pub(crate) fn slot_of(thing: Thing) -> usize
    ensures { result ≡ slot_of thing }
{
    match thing {
        Thing::Fact(_) => 0,
        Thing::Key(
            Key {
                constituent: constituent @ 1..=3,
                ..
            },
        ) => constituent as usize,
        Thing::Key(_) | Thing::Due(_) => 4,
    }
}

// Takes a number into a hash.
#[tactic(auto, unfolding(crate::specs::Things::mixed))]
fn mix(hash: u64, x: u64) -> u64
    ensures { result ≡ mixed hash x }
{
    hash.wrapping_add(x).wrapping_mul(0x9e37_79b9_7f4a_7c15)
}

// Shifts a number of at most 17 binary digits into another.
#[tactic(auto, unfolding(crate::specs::Things::packed))]
fn pack(code: u64, x: u64) -> u64
    ensures { result ≡ packed code x }
{
    code.wrapping_mul(0x2_0000).wrapping_add(x)
}

fn pack_span(code: u64, span: Span) -> u64
    ensures { result ≡ span_packed code span }
{
    match span {
        Span::Unread => pack(code, 0),
        Span::Read(j, k) => pack(code, 256 * u64::from(k) + u64::from(j) + 1),
    }
}

// A phrase as one number, which no other phrase of fewer than 2^13 categories has.
#[tactic(auto, unfolding(crate::specs::Things::phrase_hashed))]
fn hash_phrase(hash: u64, phrase: Phrase) -> u64
    ensures { result ≡ phrase_hashed hash phrase }
{
    mix(
        hash,
        phrase.spans.fold(u64::from(phrase.category), pack_span),
    )
}

#[tactic(auto, unfolding(crate::specs::Things::rule_hashed))]
fn hash_rule(hash: u64, rule: Rule) -> u64
    ensures { result ≡ rule_hashed hash rule }
{
    let named = hash_phrase(mix(hash, u64::from(rule.place)), rule.left);
    rule.arguments.fold(named, hash_phrase)
}

fn hash_fact(fact: Fact) -> u64
    ensures { result ≡ fact_hashed fact }
{
    match fact {
        Fact::Item(x) => {
            let begun = pack(u64::from(x.constituent), u64::from(x.start));
            let read = pack(pack(begun, u64::from(x.dot)), u64::from(x.end));
            mix(hash_rule(1, x.rule), read)
        }
        Fact::Made(rule) => hash_rule(2, rule),
    }
}

#[tactic(auto, unfolding(crate::specs::Things::key_hashed))]
fn hash_key(key: Key) -> u64
    ensures { result ≡ key_hashed key }
{
    let kind = if key.made { 3 } else { 4 };
    let place = pack(u64::from(key.constituent), u64::from(key.start));
    mix(hash_phrase(kind, key.phrase), place)
}

// A number for each thing, by whose first binary digits it has its bucket. Each kind of thing begins it with another number.
#[tactic(auto, unfolding(crate::specs::Things::hash_of))]
pub(crate) fn hash(thing: &Thing) -> u64
    ensures value { result ≡ hash_of thing.now }
    ensures bound { result < 2 ^ 63 }
{
    let mixed = match *thing {
        Thing::Fact(fact) => hash_fact(fact),
        Thing::Key(key) => hash_key(key),
        Thing::Due(tokens) => mix(5, u64::from(tokens)),
    };
    mixed / 2
}
