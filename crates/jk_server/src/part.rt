//! A worker's post, the reasons why it ends, and all that it leaves.

use jk_io::ListOf;
use lb_shared::SiteStray;
use site_config::Config;
use site_mounts::UriMap;

/// The site that a worker serves, and the worker's number.
#[derive(Clone, Copy)]
pub struct Post<'a> {
    pub cfg: &'a Config,
    pub map: &'a UriMap,
    pub number: u32,
}

/// Why a worker ended.
#[derive(Drop)]
pub enum WorkerEnd<L> {
    /// No client comes any more. `sessions` counts those that were served.
    Closed { sessions: u64 },
    /// The door failed.
    DoorFault,
    /// The shelf failed to keep a segment of a journal.
    ShelfFault,
    /// The log failed.
    LogFault,
    /// A ticket that came back wasn't out.
    Stray(SiteStray<L>),
    NoMemory,
}

/// How the workers ended, in the order of their parts.
pub type WorkerEndList<L> = ListOf<WorkerEnd<L>>;

/// How the workers of a run ended, what their desks left, and their gears, in order; before that, the room for it.
#[derive(Drop)]
pub(crate) struct Ran<L, V, G> {
    pub(crate) workers: Vec<WorkerEnd<L>>,
    pub(crate) leaving: Vec<V>,
    pub(crate) gears: Vec<G>,
}
