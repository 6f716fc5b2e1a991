//! The traits of the outside: streams, files, clocks, dials, doors and reaches.
pub(crate) mod reach;
pub(crate) mod streams;
pub(crate) mod surroundings;

pub use reach::Reach;
pub use streams::{Awaited, Link, Meanings, Sink, Source};
pub use surroundings::{Clock, Dial, Door, Files, Peer};
