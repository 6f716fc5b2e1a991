//! Troubles of the real world, for a person to read.

use std::io;
use thiserror::Error;

/// What failed, and of what. The reason is the system's.
#[derive(Debug, Drop, Error)]
pub enum Trouble {
    #[error("can't wait for clients at {address}: {reason}")]
    Listen { address: String, reason: io::Error },
    #[error("an address is HOST:PORT, as 127.0.0.1:8080, or 0.0.0.0:8080 for all of the machine's: {address}")]
    Address { address: String },
    /// The socket at which a stop is asked for.
    #[error("can't be asked to stop at {path}: {reason}")]
    Control { path: String, reason: io::Error },
    #[error("can't write a journal in {dir}: {reason}")]
    Journal { dir: String, reason: io::Error },
    #[error("can't write {path}: {reason}")]
    Unwritten { path: String, reason: io::Error },
    /// A balancer's journal has no file, since none can be named after it.
    #[error("can't write the journal of balancer {lb}: it has no name")]
    Nameless { lb: u32 },
    /// A segment's file is never written over.
    #[error("a journal is there already: {path}")]
    Taken { path: String },
    #[error("can't write a log in {dir}: {reason}")]
    Log { dir: String, reason: io::Error },
    /// As many gears are out as a u64 can count.
    #[error("too many gears are out")]
    TooMany,
}
