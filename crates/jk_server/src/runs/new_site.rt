//! A Site that isn't open yet, and the moment at which its balancers start.

use lb_book::BookList;
use lb_shared::SiteBlank;

/// A Site that isn't open yet.
#[derive(Drop)]
pub(crate) struct NewSite {
    pub(crate) blank: SiteBlank,
    /// The Book of each balancer.
    pub(crate) books: BookList,
    /// The moment at which they start.
    pub(crate) at: u64,
}
