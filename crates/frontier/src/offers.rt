// The token that an item stands before at the end of the tokens.
ghost use Rattle.std.specs.Prelude.{◌≤◌, length};
ghost use Rattle.grammar.specs.Grammar.{Grammar};
ghost use Rattle.faults.specs.Sound.{Sound};
ghost use Rattle.steps.specs.Nexts.{BeforeArgument};
ghost use Rattle.frontier.specs.Offers.{Only, Runs, Offered};

use cells::Item;
use grammar::{Source, Symbol};
use steps::{after_dot, copied};

// Where the tokens from `k` to the end repeat those from `a` on, before `b`: the token that goes on.
fn running(tokens: &[u32], a: u8, b: u8, k: u8) -> Option<u32>
    requires { length tokens.now ≤ 200 }
    ensures { Only (Runs tokens.now a b k) result }
{
    let repeated = tokens.len().checked_sub(k as usize)?;
    let at = a as usize + repeated;
    let token = *tokens.get(at)?;
    // A guard: before `b` the position fits a byte.
    if at >= b as usize {
        return None;
    }
    copied(tokens, a, at as u8, k)?;
    Some(token)
}

// Before constituent `s` of argument `d`.
fn offered_within(tokens: &[u32], x: Item, d: u32, s: u32) -> Option<u32>
    requires { length tokens.now ≤ 200 }
    ensures { (g : Grammar) → BeforeArgument g x d s → Offered g tokens.now x result }
{
    let (a, b) = x.rule.arguments.at(d)?.spans.at(s)?.read()?;
    running(tokens, a, b, x.end)
}

// The token that the item stands before at the end of the tokens, if there is one.
pub fn offered<S: Source>(source: &S, tokens: &[u32], x: Item) -> Option<u32>
    requires sound { Sound (S.meaning source.now) }
    requires tokens { length tokens.now ≤ 200 }
    ensures { Offered (S.meaning source.now) tokens.now x result }
{
    match after_dot(source, x.rule.place, x.constituent, x.dot)? {
        Symbol::Token(t) => (x.end as usize == tokens.len()).then_some(t),
        Symbol::Argument(d, s) => offered_within(tokens, x, d, s),
    }
}
