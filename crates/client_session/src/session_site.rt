//! The site of a session: configuration, map, the worker's number, the client's address. Nothing here changes.

use jk_io::Peer;
use site_config::Config;
use site_mounts::UriMap;

/// The site, the worker that serves, and the client.
#[derive(Clone, Copy)]
pub struct SessionSite<'a> {
    pub cfg: &'a Config,
    pub map: &'a UriMap,
    /// The number of the worker.
    pub session: u32,
    pub peer: &'a Peer,
    /// Answers tell their moment, where the container tells none.
    pub dated: bool,
}
