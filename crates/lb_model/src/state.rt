//! The four states of a member.

/// The state of a member.
#[derive(Clone, Copy, PartialEq, Eq)]
pub enum MemberState {
    Ok,
    /// It failed at this moment, in seconds.
    Error { at: u64 },
    /// It may be chosen for one trial.
    Recover,
    /// The trial runs, under this ticket.
    Probe { ticket: u64 },
}
