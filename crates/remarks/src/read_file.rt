//! The read of a file, as it is noted for the remarks.

use jk_io::Bytes;

/// How the read of a file went.
#[derive(Clone, Copy)]
pub enum ReadOutcome {
    Whole,
    TooLong,
    /// It can't be read, or memory was wanted.
    Unread,
}

/// A file, and how its read went.
#[derive(Drop)]
pub struct ReadFile {
    pub name: Bytes,
    pub outcome: ReadOutcome,
}
