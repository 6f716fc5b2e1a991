//! Touches: the events that may change a member's state.
use lb_model::Kind;

/// What happens to a member. Moments and times are in seconds.
#[derive(Clone, Copy, PartialEq, Eq)]
pub enum Touch {
    /// A Select chose it under this ticket.
    Chosen { ticket: u64 },
    /// A ticket of it came back at this moment.
    Returned { ticket: u64, kind: Kind, at: u64 },
    /// A maintenance at this moment; an error lasts at least `recover` seconds.
    Maintained { at: u64, recover: u64 },
    /// The command Recover.
    Recover,
    /// The command Reset.
    Reset,
    /// A Select found no usable member, and this one may be revived.
    Revived,
}
