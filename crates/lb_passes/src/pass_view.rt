//! A caller's view of the one history. No value of these types is made: proofs alone speak of them.

use lb_model::{Entry, Opening};
use std::collections::LinkedList;

/// Where a caller stands in the queue for the Book.
pub enum Turn {
    /// It has no turn.
    Idle,
    /// It drew this turn.
    Waits(u64),
    /// It has this turn, and the Book.
    Out(u64),
    /// It was joined to another caller.
    Spent,
}

/// What the one history began with, and when its Book is cut.
pub struct Origin {
    /// The opening that the history begins with.
    pub opening: Opening,
    /// How many entries the Book had added before.
    pub added: u64,
    /// A Book with this many kept entries is cut. It never is where this is 0.
    pub cut_at: u32,
}

/// What a caller knows.
pub struct PassView {
    /// What the history began with.
    pub origin: Origin,
    pub number: u64,
    pub turn: Turn,
    /// The entries that it has seen, from the first one on.
    pub seen: LinkedList<Entry>,
    /// Those that it was told of by another, and hasn't put together with its own yet.
    pub met: LinkedList<Entry>,
    /// For each number that it carries: the entries of that caller.
    pub owns: LinkedList<(u64, LinkedList<Entry>)>,
    /// Whether it gives the numbers.
    pub roots: bool,
    /// How many numbers were given, where it gives them.
    pub given: u64,
}
