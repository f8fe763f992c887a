// What the memory of a note is made of: cells. A cell holds one row: of the grammar, a token, or a fact of the chart.
#![tactic(auto)]

ghost use Rattle.std.specs.Prelude.{◌≡◌, ◌≢◌, ℕ, Decides, MatchOption};
ghost use Rattle.grammar.specs.Grammar.{from_one};
ghost use Rattle.chart.specs.Chart.{put};
ghost use Rattle.std.specs.List.{FoldsTo};
ghost use Rattle.cells.specs.Facts.{list_of, FactsApart};

use grammar::Symbol;

// The most tokens of a note.
pub const MOST_TOKENS: usize = 64;

// How a constituent stands: unread, or read from one position of the tokens to another.
// It has the shape of an Option and stays: the two states are the chart's own words and stand so in its definitions.
#[derive(Clone, Copy, PartialEq, Eq)]
pub enum Span {
    Unread,
    Read(u8, u8),
}

// Up to three things in order. An enum and no array with a length beside it, so that equal lists are equal values.
#[derive(Clone, Copy, PartialEq, Eq)]
pub enum Short<T> {
    Nil,
    One(T),
    Two(T, T),
    Three(T, T, T),
}

// A category, and how each of its constituents stands.
#[derive(Clone, Copy, PartialEq, Eq)]
pub struct Phrase {
    pub category: u32,
    pub spans: Short<Span>,
}

// The place makes the phrase `left` from the phrases `arguments`.
#[derive(Clone, Copy, PartialEq, Eq)]
pub struct Rule {
    pub left: Phrase,
    pub place: u32,
    pub arguments: Short<Phrase>,
}

// A rule that is being read: one constituent of its left side, from position `start` to position `end`, with `dot` of its
// symbols passed.
#[derive(Clone, Copy, PartialEq, Eq)]
pub struct Item {
    pub rule: Rule,
    pub constituent: u32,
    pub start: u8,
    pub dot: u32,
    pub end: u8,
}

// A fact of the chart.
#[derive(Clone, Copy, PartialEq, Eq)]
pub enum Fact {
    Item(Item),
    Made(Rule),
}

// What a cell holds. A position of a cell is 0 where there is none: the rows mean so (rows specs/Links), and no place stands in cell 0.
// The fields go by position and are no structs, since the definitions match on the cases so; each case is made in one place (copying)
// and taken apart in one file (rows/src/sorts.rt), which gives the fields names.
#[derive(Clone, Copy)]
pub enum Row {
    // The cell is not in use.
    Nothing,
    // A category: its dimension, the least height of a tree of it (0 where there is none), the cell of its first live place.
    Category(u32, u32, usize),
    // A function: its arity, the cell of its first constituent, how many constituents.
    Function(u32, usize, u32),
    // A constituent of a function: the cell of its first symbol, how many symbols.
    Constituent(usize, u32),
    Symbol(Symbol),
    // A place that holds no production.
    Empty,
    // A place that holds one: its result, its function, the cell of its first argument, how many arguments, and the cell of
    // the next live place with that result.
    Place(u32, u32, usize, u32, usize),
    // An argument category of a place.
    Argument(u32),
    Token(u32),
    Fact(Fact),
}

// The links of a cell in one index of the facts. An index is a table of buckets, whose heads stand in the first cells of the facts, one
// in each: `head` is the last cell of the bucket whose head stands here, `next` the cell before this one in its own bucket. A link is 0
// where there is none, since no fact stands in cell 0. The memory is fixed, and an Option<usize> takes twice the room of a number: the
// ten links of a cell would take 80 bytes more.
#[derive(Clone, Copy)]
pub struct Link {
    pub head: usize,
    pub next: usize,
}

pub const NO_LINK: Link = Link { head: 0, next: 0 };

// What an item waits for, if it waits; and of a made rule in a closed note, the number of its left side. `Idle` stands here and the rest
// in no Option: each cell has exactly one of four answers, and the definitions match on them.
#[derive(Clone, Copy)]
pub enum Waiting {
    // It waits for nothing.
    Idle,
    // It stands before an unread constituent of an argument: the argument and the constituent, counted from 1.
    Part(u32, u32),
    // It stands before tokens that are not all there yet: how many tokens there are once they are.
    Until(u32),
    // The left sides of made rules are numbered in the order in which they first stand in the log.
    Left(usize),
}

// A cell: its row; what it waits for, or its number; and links for the five indices of the facts. The links have names and are no
// array, since an array is a list of any length in a clause: each clause over cells would have to say that it has five, or a ghost field
// would say so, and then `..cell` and `..ZERO` could not be written.
#[derive(Clone, Copy)]
pub struct Cell {
    pub row: Row,
    pub wait: Waiting,
    pub fact: Link,
    pub first: Link,
    pub second: Link,
    pub third: Link,
    pub whole: Link,
}

// The cell that is not in use.
pub const ZERO: Cell = Cell {
    row: Row::Nothing,
    wait: Waiting::Idle,
    fact: NO_LINK,
    first: NO_LINK,
    second: NO_LINK,
    third: NO_LINK,
    whole: NO_LINK,
};

impl Span {
    // From where to where it is read, if it is.
    pub fn read(self) -> Option<(u8, u8)>
        ensures { MatchOption result (self ≡ Span.Unread) (λ p. self ≡ Span.Read p.0 p.1) }
    {
        match self {
            Span::Unread => None,
            Span::Read(start, end) => Some((start, end)),
        }
    }
}

impl Row {
    // The fact that the cell holds, if it holds one. A row is one of ten cases.
    pub fn fact(self) -> Option<Fact>
        ensures { MatchOption result ((f : Fact) → self ≢ Row.Fact f) (λ f. self ≡ Row.Fact f) }
    {
        match self {
            Row::Fact(fact) => Some(fact),
            _ => None,
        }
    }
}

impl Waiting {
    // The number of the left side, where there is one. What is waited for is one of four cases.
    pub fn left(self) -> Option<usize>
        ensures { MatchOption result ((n : ℕ) → self ≢ Waiting.Left n) (λ n. self ≡ Waiting.Left n) }
    {
        match self {
            Waiting::Left(number) => Some(number),
            _ => None,
        }
    }
}

impl<T: Copy> Short<T> {
    // Thing `i`, counted from 1.
    pub fn at(self, i: u32) -> Option<T>
        ensures { result ≡ from_one (list_of self) i }
    {
        match (self, i) {
            (Short::One(a) | Short::Two(a, _) | Short::Three(a, _, _), 1) => Some(a),
            (Short::Two(_, b) | Short::Three(_, b, _), 2) => Some(b),
            (Short::Three(_, _, c), 3) => Some(c),
            _ => None,
        }
    }

    // The same with `x` as thing `i`, counted from 1, if there is one.
    pub fn with(self, i: u32, x: T) -> Short<T>
        ensures { list_of result ≡ put (list_of self) i x }
    {
        match (self, i) {
            (Short::One(_), 1) => Short::One(x),
            (Short::Two(_, b), 1) => Short::Two(x, b),
            (Short::Two(a, _), 2) => Short::Two(a, x),
            (Short::Three(_, b, c), 1) => Short::Three(x, b, c),
            (Short::Three(a, _, c), 2) => Short::Three(a, x, c),
            (Short::Three(a, b, _), 3) => Short::Three(a, b, x),
            _ => self,
        }
    }

    // What `step` makes of `start` and the things, one after another.
    pub fn fold<A, F: Fn(A, T) -> A>(self, start: A, step: F) -> A
        requires { F.IsAlwaysCallable step }
        ensures { FoldsTo (λ made x next. F.post step made x next) start (list_of self) result }
    {
        match self {
            Short::Nil => start,
            Short::One(a) => step(start, a),
            Short::Two(a, b) => step(step(start, a), b),
            Short::Three(a, b, c) => step(step(step(start, a), b), c),
        }
    }
}

// Whether two phrases are the same. This states what the derived `==` promises, which code writes by itself.
pub fn same_phrase(x: Phrase, y: Phrase) -> bool
    ensures { Decides result (x ≡ y) }
{
    x == y
}

// Whether two facts are the same: likewise of their `==`.
pub fn same_fact(a: Fact, b: Fact) -> bool
    ensures { Decides result (a ≡ b) }
{
    a == b
}

// Two facts in cells are the same exactly when they mean the same fact of the chart.
pub fn facts_apart()
    ensures { FactsApart }
{}
