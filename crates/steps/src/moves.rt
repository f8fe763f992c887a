// The one step that leads from an item, if it does not wait.
ghost use Rattle.std.specs.Prelude.{◌≡◌, suc, ◌≤◌, length, MatchOption};
ghost use Rattle.grammar.specs.Grammar.{Grammar};
ghost use Rattle.faults.specs.Sound.{Sound};
ghost use Rattle.steps.specs.Nexts.{BeforeToken, BeforeArgument, NextOf};

use crate::next::Next;
use crate::{after_dot, copied, finished, scanned, span_at};
use cells::{Fact, Item, Span};
use grammar::{Source, Symbol};

// Before the token `t`.
fn before_token(tokens: &[u32], x: Item, t: u32) -> Next
    requires tokens { length tokens.now ≤ 200 }
    requires dot { suc x.dot ≤ 16 }
    ensures { (g : Grammar) → BeforeToken g x t → NextOf g tokens.now x result }
{
    scanned(tokens, x, t).map_or(Next::Stuck, |z| Next::Moves(Fact::Item(z)))
}

// Before constituent `s` of argument `d`.
fn before_argument(tokens: &[u32], x: Item, d: u32, s: u32) -> Next
    requires tokens { length tokens.now ≤ 200 }
    requires dot { suc x.dot ≤ 16 }
    ensures { (g : Grammar) → BeforeArgument g x d s → NextOf g tokens.now x result }
{
    // Three ways to go on, and none is to pass nothing on.
    match span_at(x, d, s) {
        Some(Span::Unread) => Next::Waits(d, s),
        Some(Span::Read(a, b)) => {
            copied(tokens, a, b, x.end).map_or(Next::Stuck, |end| {
                Next::Moves(Fact::Item(Item {
                    dot: x.dot + 1,
                    end,
                    ..x
                }))
            })
        }
        None => Next::Stuck,
    }
}

// What an item does next with these tokens.
pub fn next_of<S: Source>(source: &S, tokens: &[u32], x: Item) -> Next
    requires sound { Sound (S.meaning source.now) }
    requires tokens { length tokens.now ≤ 200 }
    ensures { NextOf (S.meaning source.now) tokens.now x result }
{
    // Three ways to go on: no symbol after the dot is the end of the constituent.
    match after_dot(source, x.rule.place, x.constituent, x.dot) {
        None => Next::Moves(Fact::Made(finished(x))),
        Some(Symbol::Token(t)) => before_token(tokens, x, t),
        Some(Symbol::Argument(d, s)) => before_argument(tokens, x, d, s),
    }
}
