// The steps of the chart, each from facts in cells to at most one fact, for the grammar of any source. Premises and no types are: `Sound`
// of the grammar (a `Faultless` in place of the source was tried with the bare rules, and is no plainer: closing makes a source for each
// question and would wrap each, and each proof would turn the fault that is none into `Sound` again); and the bounds on a dot and on the
// tokens, each one clause about plain values that come out of lent memory. An argument and a constituent stay two numbers, as
// `Symbol::Argument` and the chart's definitions have them.
#![tactic(auto)]

ghost use Rattle.std.specs.Prelude.{◌≡◌, ℕ, suc, ◌≤◌, length, Some, MatchOption};
ghost use Rattle.std.specs.List.{slice_get};
ghost use Rattle.grammar.specs.Grammar.{from_one};
ghost use Rattle.chart.specs.Chart.{symbols_of, read_as, left_read, with_argument, item};
ghost use Rattle.cells.specs.declared.Span.TheVariants.{Unread};
ghost use Rattle.cells.specs.Facts.{list_of, phrase_of, rule_of, meant};
ghost use Rattle.faults.specs.Sound.{Sound};
ghost use Rattle.steps.specs.Steps.{Scanned, Copied, ReadFrom, span_at};

mod bare;
mod joins;
mod live;
mod moves;
pub mod next;
mod waits;

pub use bare::{bare_phrase, bare_rule};
use cells::{Fact, Item, Phrase, Rule, Span};
use grammar::{Source, Symbol};
pub use joins::join;
pub use live::LiveSource;
pub use moves::next_of;
pub use waits::wait_of;

// The symbol after the dot in a constituent of the function that a place uses: none at its end.
pub fn after_dot<S: Source>(source: &S, place: u32, constituent: u32, dot: u32) -> Option<Symbol>
    requires { Sound (S.meaning source.now) }
    ensures { result ≡ slice_get (symbols_of (S.meaning source.now) place constituent) dot }
{
    let filled = source.place(place)?;
    let index = dot.checked_add(1)?;
    source.symbol(filled.function, constituent, index)
}

// How constituent `s` of argument `d` of an item stands, both counted from 1.
pub fn span_at(x: Item, d: u32, s: u32) -> Option<Span>
    ensures { result ≡ span_at x d s }
{
    x.rule.arguments.at(d)?.spans.at(s)
}

// The phrase with constituent `s`, counted from 1, read from `start` to `end`.
fn read_as(x: Phrase, s: u32, start: u8, end: u8) -> Phrase
    ensures { phrase_of result ≡ read_as (phrase_of x) s start end }
{
    Phrase {
        spans: x.spans.with(s, Span::Read(start, end)),
        ..x
    }
}

// Finish: the rule of an item, with what the item read on its left side.
pub fn finished(x: Item) -> Rule
    ensures { rule_of result ≡ left_read (rule_of x.rule) x.constituent x.start x.end }
{
    Rule {
        left: read_as(x.rule.left, x.constituent, x.start, x.end),
        ..x.rule
    }
}

// Scan: the item with its dot past the token `t`, if this is the next one.
pub fn scanned(tokens: &[u32], x: Item, t: u32) -> Option<Item>
    requires tokens { length tokens.now ≤ 200 }
    requires dot { suc x.dot ≤ 16 }
    ensures { Scanned tokens.now x t result }
{
    let next = *tokens.get(x.end as usize)?;
    (next == t).then_some(Item {
        dot: x.dot + 1,
        end: x.end + 1,
        ..x
    })
}

// Copy: the position up to which the tokens from `a` to `b` stand once more, from `k` on.
pub fn copied(tokens: &[u32], a: u8, b: u8, k: u8) -> Option<u8>
    requires { length tokens.now ≤ 200 }
    ensures { Copied tokens.now a b k result }
{
    let part = tokens.get(a as usize..b as usize)?;
    let rest = tokens.get(k as usize..)?;
    // No `then_some`: the sum fits only where the part stands there.
    if rest.starts_with(part) {
        Some(k + (b - a))
    } else {
        None
    }
}

// Predict: the item that starts to read a constituent of a rule at a position.
pub fn predicted(rule: Rule, constituent: u32, at: u8) -> Item
    ensures { meant (Fact.Item result) ≡ item (rule_of rule) constituent at 0 at }
{
    Item {
        rule,
        constituent,
        start: at,
        dot: 0,
        end: at,
    }
}

// Copy and combine: the item with its dot past a symbol, up to `end`, and the phrase for its argument `d`, counted from 1.
pub fn combined(x: Item, d: u32, phrase: Phrase, end: u8) -> Item
    requires { suc x.dot ≤ 16 }
    ensures { meant (Fact.Item result) ≡ item (with_argument (rule_of x.rule) d (phrase_of phrase)) x.constituent x.start (suc x.dot) end }
{
    let arguments = x.rule.arguments.with(d, phrase);
    Item {
        rule: Rule {
            arguments,
            ..x.rule
        },
        dot: x.dot + 1,
        end,
        ..x
    }
}

// Up to where the phrase `y` is `x` with the unread constituent `s` read from `k`, if it is that.
pub fn read_from(x: Phrase, s: u32, k: u8, y: Phrase) -> Option<u8>
    requires { from_one (list_of x.spans) s ≡ Some Unread }
    ensures { ReadFrom x s k y result }
{
    let (start, end) = y.spans.at(s)?.read()?;
    let whole = read_as(x, s, k, end);
    (start == k && y == whole).then_some(end)
}
