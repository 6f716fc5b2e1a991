//! A link of a reach in memory, and the member that it leads to.
use crate::memory::mem_link::MemLink;

/// A link, with the balancer and the member that it leads to.
#[derive(Drop)]
pub struct MemberLink {
    pub(crate) lb: u32,
    pub(crate) member: u32,
    pub(crate) link: MemLink,
}
