// What an item does next: it moves to one fact, or waits for a constituent of an argument, or neither: three answers, and so no Option.
use cells::Fact;

#[derive(Clone, Copy)]
pub enum Next {
    // One step leads from it, to this fact.
    Moves(Fact),
    // It stands before an unread constituent: the argument and the constituent, counted from 1.
    Waits(u32, u32),
    // No step leads from it.
    Stuck,
}
