//! Talks with the members of balancers: what one is asked for with, and what is told of the one that runs and of those that ended.
use crate::byte_list::Bytes;
use crate::list_of::ListOf;

/// A talk that ended, or that never began since the dial failed.
#[derive(Drop)]
pub struct Talk {
    pub lb: u32,
    pub member: u32,
    pub host: Bytes,
    pub port: u16,
    /// A new link was asked for.
    pub fresh: bool,
    /// The link was new.
    pub dialled: bool,
    /// What the link had to come when the talk began.
    pub came: Option<Bytes>,
    pub sent: Bytes,
    pub received: Bytes,
    /// The link was to be kept for a later talk.
    pub keep: bool,
}

/// What a talk is asked for with.
#[derive(Clone, Copy)]
pub struct TalkAsked<'h> {
    /// The place of the balancer, from 0.
    pub lb: u32,
    /// The place of the member in its balancer, from 0.
    pub member: u32,
    pub host: &'h Bytes,
    pub port: u16,
    /// A new link is asked for.
    pub fresh: bool,
}

/// Talks in the order in which they ended.
pub type TalkList = ListOf<Talk>;

/// What the running talk was begun with.
#[derive(Drop)]
pub struct Begun {
    pub lb: u32,
    pub member: u32,
    pub host: Bytes,
    pub port: u16,
    pub fresh: bool,
    pub dialled: bool,
    pub came: Option<Bytes>,
}

/// What no read and no write of a reach changes. A contract speaks of it; no value of it is made.
#[derive(Drop)]
pub struct Beside {
    pub runs: bool,
    /// The number of members of each balancer; it never changes.
    pub sizes: ListOf<u32>,
    /// The running talk, where it is told.
    pub begun: Option<Begun>,
    /// The talks that ended, where they are told.
    pub talks: Option<TalkList>,
}
