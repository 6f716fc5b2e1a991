//! Entries of a journal: calls, answers, and the outcomes of exchanges.
use crate::ask::Ask;
use crate::change::Command;
use jk_io::ListOf;

/// The most bytes that an outcome tells.
pub const MOST_BYTES: u64 = 1 << 44;

/// How an exchange with a member ended.
#[derive(Clone, Copy, Debug, PartialEq, Eq)]
pub enum Kind {
    Done,
    Failed,
    /// The client left, or nothing was learned of the member.
    Gone,
}

/// The end of an exchange, and the bytes that it moved, at most 2^44.
#[derive(Clone, Copy, Debug, PartialEq, Eq)]
pub struct Outcome {
    pub kind: Kind,
    pub bytes: u64,
}

/// By which rule a member was chosen.
#[derive(Clone, Copy, Debug, PartialEq, Eq)]
pub enum How {
    /// The session's own member.
    Sticky,
    /// The redirect of the session's own member.
    Redirect,
    /// The least loaded.
    Balanced,
}

/// What happened to a balancer.
#[derive(Clone, Copy, Debug, PartialEq, Eq)]
pub enum Call {
    Select(Ask),
    Return { ticket: u64, outcome: Outcome },
    Maintain,
    Admin(Command),
}

/// What the balancer answered.
#[derive(Clone, Copy, Debug, PartialEq, Eq)]
pub enum Answer {
    Chosen {
        member: u32,
        ticket: u64,
        how: How,
        /// Whether this exchange is the trial of a member that failed before.
        probe: bool,
    },
    NoMember,
    /// The session's member doesn't serve, and the balancer forces sessions to stay.
    Forced,
    Done,
}

/// An entry of a journal: a call at a moment, with its answer.
#[derive(Clone, Copy, Debug, PartialEq, Eq)]
pub struct Entry {
    /// The number of the entry.
    pub seq: u64,
    /// Whose call it was.
    pub session: u32,
    /// The moment, in seconds.
    pub at: u64,
    pub call: Call,
    pub answer: Answer,
}

/// The entries of a journal, oldest first.
pub type EntryList = ListOf<Entry>;
