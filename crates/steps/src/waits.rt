// What an item waits for, if it waits.
ghost use Rattle.grammar.specs.Grammar.{Grammar};
ghost use Rattle.faults.specs.Sound.{Sound};
ghost use Rattle.steps.specs.Nexts.{BeforeArgument};
ghost use Rattle.steps.specs.Waits.{Told};

use crate::{after_dot, span_at};
use cells::{Item, Span, Waiting};
use grammar::{Source, Symbol};

// Before constituent `s` of argument `d`.
fn wait_before(x: Item, d: u32, s: u32) -> Waiting
    ensures { (g : Grammar) → BeforeArgument g x d s → Told g x result }
{
    // By cases: nothing to wait for is an answer of its own, `Idle`.
    match span_at(x, d, s) {
        Some(Span::Unread) => Waiting::Part(d, s),
        Some(Span::Read(a, b)) if a < b => Waiting::Until(u32::from(x.end) + u32::from(b - a)),
        _ => Waiting::Idle,
    }
}

// What the item waits for.
pub fn wait_of<S: Source>(source: &S, x: Item) -> Waiting
    requires { Sound (S.meaning source.now) }
    ensures { Told (S.meaning source.now) x result }
{
    // Three cases, likewise.
    match after_dot(source, x.rule.place, x.constituent, x.dot) {
        None => Waiting::Idle,
        Some(Symbol::Token(_)) => Waiting::Until(u32::from(x.end) + 1),
        Some(Symbol::Argument(d, s)) => wait_before(x, d, s),
    }
}
