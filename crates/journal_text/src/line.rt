//! The lines of a journal's text, as values.
use jk_io::Bytes;
use lb_model::{Activation, Entry, MemberState, Method};

/// The values of a balancer in its line, beside its name.
#[derive(Clone, Copy)]
pub struct BalancerValues {
    pub method: Method,
    pub sticky: bool,
    pub force: bool,
    pub direct: bool,
    /// Seconds between two maintenances.
    pub maintain: u64,
    /// Seconds until a failed member may be tried again.
    pub recover: u64,
    /// How many member lines follow.
    pub members: u32,
}

/// The values of a member in its line, beside its name and its route.
#[derive(Clone, Copy)]
pub struct MemberValues {
    pub factor: u32,
    pub distance: u32,
    pub activation: Activation,
    pub redirect: Option<u32>,
    pub pool: u32,
    pub state: MemberState,
    pub load: u128,
}

/// Where a segment begins.
#[derive(Clone, Copy)]
pub struct Beginning {
    /// The number of its first entry.
    pub next: u64,
    /// The moment before which no entry stands, in seconds.
    pub at: u64,
    /// The moment of the last maintenance.
    pub maintained: u64,
    /// The member that was chosen last.
    pub chosen: Option<u32>,
}

/// A line of a journal's text.
#[derive(Drop)]
pub enum Line {
    /// A segment begins, of rules 1 or 2.
    Rules(u8),
    Balancer {
        name: Bytes,
        values: BalancerValues,
    },
    Member {
        name: Bytes,
        route: Bytes,
        values: MemberValues,
    },
    /// A ticket that is out, and its member.
    Lease {
        ticket: u64,
        member: u32,
    },
    From(Beginning),
    Entry(Entry),
    /// A segment ends, with the count of its entries.
    End(u64),
}
