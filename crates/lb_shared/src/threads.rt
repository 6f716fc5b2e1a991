//! Here the compiler proves that desks may go to threads that all ask one Site.

use crate::shared_desk::SharedDesk;
use crate::shared_site::SharedSite;
use crate::shelf::Shelf;
use crate::site::SiteName;

/// Takes a Site that threads share, and a desk that goes to one of them. It does nothing.
pub fn may_cross_threads<'s, 'r, L: SiteName + Send + Sync, S: Shelf + Send, R: Sync>(
    site: &SharedSite<'r, L, R>,
    desk: &SharedDesk<'s, 'r, L, S, R>,
) {
    may_be_shared(site);
    may_be_sent(desk);
}

fn may_be_shared<T: Sync>(_value: &T) {}

fn may_be_sent<T: Send>(_value: &T) {}
