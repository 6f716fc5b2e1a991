//! How far a talk came.

/// How far a talk had come when it failed.
#[derive(Clone, Copy, Debug, PartialEq, Eq)]
pub struct Stage {
    /// The Forward Request and the first piece were written whole.
    pub got: bool,
    /// A Send Headers came whole.
    pub headers: bool,
    /// A byte of the reply was written to the client.
    pub passed: bool,
    /// Bytes of the body after the first piece were taken.
    pub beyond: bool,
}
