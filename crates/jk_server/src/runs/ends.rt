//! How a run ends, and what comes back of it.

use crate::part::WorkerEndList;
use lb_closing::Discord;

/// How the closing of a run ended, once all workers had.
#[derive(Drop)]
pub enum Closing<L> {
    /// Each balancer's last segment was kept on the first gear's shelf.
    Kept,
    /// That shelf failed to keep one.
    ShelfFault,
    /// The receipts of the workers aren't the entries that the balancers keep.
    Differs(Discord<L>),
    NoMemory,
}

/// How the workers of a site ended, how the closing did, and the gears, in order. No gear comes back after `Differs`.
#[derive(Drop)]
pub struct SiteRun<L, G> {
    pub workers: WorkerEndList<L>,
    pub closing: Closing<L>,
    pub gears: Vec<G>,
}
