//! The limits of a front's clients: time, rate, how many wait.

/// The limits of a front's clients. 0 is without limit, where none makes sense.
#[derive(Clone, Copy, Debug, PartialEq, Eq)]
pub struct ClientLimits {
    /// Seconds for a whole head, from its first byte, or from the accept for a client's first.
    pub head: u64,
    /// Seconds between two requests.
    pub keep: u64,
    /// Bytes a second, in steps of 20 seconds: who gives fewer of a body, or takes fewer of a reply, loses its link.
    pub rate: u64,
    /// How many clients wait at most, for their turn or between their requests.
    pub waiting: u64,
}
