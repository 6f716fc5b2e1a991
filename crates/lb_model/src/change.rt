//! The commands of a status worker.
use crate::member::Activation;

/// What an update does with a member's redirect.
#[derive(Clone, Copy, Debug, PartialEq, Eq)]
pub enum Redirect {
    Keep,
    None,
    To(u32),
}

/// New values of a member; what is `None` or `Keep` stays.
#[derive(Clone, Copy, Debug, PartialEq, Eq)]
pub struct Change {
    pub activation: Option<Activation>,
    pub factor: Option<u32>,
    pub distance: Option<u32>,
    pub redirect: Redirect,
}

/// A command of the status worker.
#[derive(Clone, Copy, Debug, PartialEq, Eq)]
pub enum Command {
    Update { member: u32, change: Change },
    /// Makes the member's state Ok and its load 0.
    Reset { member: u32 },
    /// Makes a member in Error eligible for a trial.
    Recover { member: u32 },
}
