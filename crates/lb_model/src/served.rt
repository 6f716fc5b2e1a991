//! Answered requests, as rows for a log.
use jk_io::Bytes;

/// What the client asked for.
#[derive(Drop)]
pub enum Asked {
    /// The head was refused before its request line was known.
    Refused,
    Line {
        method: Bytes,
        target: Bytes,
        /// Whether it was HTTP/1.0.
        old: bool,
    },
}

/// A request that was answered, for the log.
#[derive(Drop)]
pub struct Served {
    pub asked: Asked,
    pub status: u16,
    /// The bytes of the reply's body.
    pub body: u64,
    /// The name of the worker that it was mounted at.
    pub worker: Option<Bytes>,
}
