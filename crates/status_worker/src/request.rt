//! The request of a page from a status worker.

use jk_io::Bytes;
use site_config::{Config, Status};

/// A request of a status worker, and the site that it is asked of.
#[derive(Clone, Copy)]
pub struct PageRequest<'a> {
    pub cfg: &'a Config,
    /// The number of the worker that serves it.
    pub session: u32,
    pub status: &'a Status,
    pub query: &'a Option<Bytes>,
}
