//! The history of a turnstile, and what a pass knows of it. No value of these types is made: contracts speak of them.
use std::collections::LinkedList;

/// A call that was made: by which pass, which operation, and what the machine answered.
pub struct Call<O, A> {
    pub pass: u64,
    pub op: O,
    pub answer: A,
}

/// Where a pass is within a call or a split.
pub enum Phase {
    /// In none.
    Idle,
    /// It drew a number for a pass that isn't split off yet.
    Drawn,
    /// It has the turn, and its call isn't in the history yet.
    Holding,
    /// It has the turn, its call is in the history, and the dials below this number show it.
    Publishing(u64),
    /// It was joined to another pass.
    Spent,
}

/// What a pass knows.
pub struct View<O, A> {
    /// The number of the pass. That of the first pass is 0.
    pub number: u64,
    /// The history, as far as the pass has seen it.
    pub seen: LinkedList<Call<O, A>>,
    /// The calls of the pass.
    pub mine: LinkedList<Call<O, A>>,
    /// The passes that were joined to it, each with its number and its calls.
    pub joined: LinkedList<(u64, LinkedList<Call<O, A>>)>,
    /// The numbers of the passes that were split off and aren't joined back.
    pub split: LinkedList<u64>,
    pub phase: Phase,
    /// For each dial what it was when the pass glanced at it last, or 0.
    pub lowest: LinkedList<u64>,
}
