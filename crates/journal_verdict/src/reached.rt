//! The end of the segments that were read so far, and their counts.

use crate::ruling::Verdict;
use jk_io::Bytes;
use lb_model::Opening;

/// What segments come to, where all of them are right.
#[derive(Drop)]
pub(crate) struct Reached {
    /// The name and the end of the last segment, if there was one.
    pub(crate) former: Option<(Bytes, Opening)>,
    /// The lines of all segments.
    pub(crate) lines: u32,
    /// The entries of all segments.
    pub(crate) entries: u64,
}

/// What the check of a text comes to, as far as it is read.
#[derive(Drop)]
pub(crate) enum Check {
    Good(Reached),
    Bad(Verdict),
}
