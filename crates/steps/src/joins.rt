// The one step that leads from an item that waits and a made rule.
ghost use Rattle.std.specs.Prelude.{◌≡◌, suc, ◌≤◌, Some};
ghost use Rattle.grammar.specs.Grammar.{from_one};
ghost use Rattle.cells.specs.declared.Span.TheVariants.{Unread};
ghost use Rattle.cells.specs.Facts.{list_of};
ghost use Rattle.steps.specs.Joins.{JoinOf};

use crate::{combined, predicted, read_from};
use cells::{Fact, Item, Phrase, Rule};

// What an item that waits for the unread constituent `s` of its argument `d`, the phrase `awaited`, and a made rule lead to.
pub fn join(x: Item, d: u32, s: u32, awaited: Phrase, made: Rule) -> Option<Fact>
    requires dot { suc x.dot ≤ 16 }
    requires argument { from_one (list_of x.rule.arguments) d ≡ Some awaited }
    requires unread { from_one (list_of awaited.spans) s ≡ Some Unread }
    ensures { JoinOf x d s made result }
{
    if made.left == awaited {
        return Some(Fact::Item(predicted(made, s, x.end)));
    }
    let end = read_from(awaited, s, x.end, made.left)?;
    Some(Fact::Item(combined(x, d, made.left, end)))
}
