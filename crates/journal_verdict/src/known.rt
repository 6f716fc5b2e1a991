//! The state of a follower: the machine and the next line's number, or why it stopped.
use crate::error::FollowError;
use crate::machine::Machine;

/// What is known of the bytes so far.
#[derive(Drop)]
pub(crate) enum Known {
    /// All lines were taken; the next one has this number.
    Going(Machine, u64),
    Stopped(FollowError),
}
