// One token more in an area.
ghost use Rattle.std.specs.Prelude.{ℕ, ◌<◌, List};
ghost use Rattle.grammar.specs.Grammar.{Grammar};
ghost use Rattle.area.specs.Held.{Held, most_tokens};
ghost use Rattle.area.specs.Contents.{InUse};
ghost use Rattle.area.specs.Opened.{Extended};

use crate::numbers::Numbers;
use crate::tokens::token_cell;
use cells::Cell;
use closing::{Room, Run};
use extending::extend;

impl Numbers {
    // Extends the area by a token: the numbers of the area then. Where there is no room, the area is as it was.
    pub fn extend_by(self, cells: &mut [Cell], token: u32) -> Option<Numbers>
        requires held { InUse cells.old self }
        requires room { self.held < most_tokens }
        requires known { token < self.counts.tokens }
        ensures { (g : Grammar) (w : List ℕ) → Held g w cells.old self → Extended g w token cells.old cells.new self result }
    {
        let Room { base, limit } = self.room(cells);
        // A guard: there is no value yet whose absence could be passed on.
        if limit <= self.end {
            return None;
        }
        let mut tokens = self.tokens(cells);
        tokens.push(token);
        let run = Run {
            counts: self.counts,
            tokens: &tokens,
            room: Room {
                base,
                limit: limit - 1,
            },
        };
        let end = extend(&run, cells, self.end)?;
        cells[limit - 1] = token_cell(token);
        Some(Numbers {
            held: self.held + 1,
            end,
            ..self
        })
    }
}
