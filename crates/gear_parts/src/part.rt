//! A worker's part: door, reach, clock, desk and log.

use lb_shared::{SharedDesk, Shelf, SiteName};

/// What a worker works with.
#[derive(Drop)]
pub struct Part<'s, 'r, L: SiteName, D, R, K, S: Shelf, W, Y> {
    pub door: D,
    pub reach: R,
    pub clock: K,
    pub desk: SharedDesk<'s, 'r, L, S, W>,
    /// Where the rows of its requests are put.
    pub log: Y,
}
