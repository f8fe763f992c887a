// What the rows of cells hold, and what two of them lead to. Each match and each let-else here is on an enum of which one case is
// meant: no Option stands there to be passed on.
ghost use Rattle.std.specs.Prelude.{◌≡◌};
ghost use Rattle.closing.specs.Joined.{item_in, made_in, JoinedOf};

use cells::{Fact, Item, Row, Rule, Span, Waiting};
use faults::limits;
use steps::join;

// The item that a row holds.
pub fn item_in(row: Row) -> Option<Item>
    ensures { result ≡ item_in row }
{
    match row {
        Row::Fact(Fact::Item(x)) => Some(x),
        _ => None,
    }
}

// The made rule that a row holds.
pub fn made_in(row: Row) -> Option<Rule>
    ensures { result ≡ made_in row }
{
    match row {
        Row::Fact(Fact::Made(rule)) => Some(rule),
        _ => None,
    }
}

// What an item that waits so and a made rule lead to.
pub(crate) fn joined(x: Item, wait: Waiting, made: Rule) -> Option<Fact>
    ensures { JoinedOf x wait made result }
{
    let Waiting::Part(d, s) = wait else {
        return None;
    };
    let awaited = x.rule.arguments.at(d)?;
    let Span::Unread = awaited.spans.at(s)? else {
        return None;
    };
    if x.dot >= limits::SYMBOLS {
        return None;
    }
    join(x, d, s, awaited, made)
}
