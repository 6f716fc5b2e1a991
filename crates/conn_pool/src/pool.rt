//! The idle links of one member.
ghost use Rattle.std.specs.Prelude.{◌≡◌, ◌-◌, ◌^◌, ◌<◌, ◌≤◌, [], ◌∷◌, ◌++◌, None, Some, length, take, IfOk, IfSome, IfNone, OnOk, OnErr};
ghost use Rattle.conn_pool.specs.Idle.{PoolState};

use jk_io::{ListOf, NoMemory};
use std::alloc::Global;
use std::marker::Model;
use std::mem;
use std::snapshot::Snapshot;

/// Links in the order in which they were put.
pub type LinkList<L> = ListOf<L>;

/// At most `size` idle links. No call but `new` and `take_all` takes memory.
#[derive(Drop)]
pub struct Pool<L> {
    idle: Vec<L>,
    size: u32,
}

impl<L> Model for Pool<L> {
    ghost use Rattle.std.specs.Prelude.{◌≤◌, vec_len, vec_capacity};
    ghost use Rattle.conn_pool.specs.Idle.{PoolState};

    ghost Value = { PoolState L };

    ghost view = { λ p. record { idle = p.idle.items; size = p.size } };

    ghost invariant = { λ p. (vec_len p.idle ≤ p.size) × (p.size ≤ vec_capacity p.idle) };
}

/// That a link was handed in: it is idle in the pool of a member, or it was closed.
#[derive(Drop)]
pub struct HandedIn<L> {
    pub(crate) link: Snapshot<L>,
    /// In whose pool it is idle.
    pub(crate) home: Option<Home>,
}

/// Whose links a pool has.
#[derive(Clone, Copy, Debug, PartialEq, Eq)]
pub struct Home {
    pub lb: u32,
    pub member: u32,
}

/// The idle links of a member.
#[derive(Drop)]
pub(crate) struct HomePool<L> {
    home: Home,
    pub(crate) pool: Pool<L>,
}

impl<L: Drop> Pool<L> {
    /// An empty pool, with the room for all its links.
    pub fn new(alloc: Global, size: u32) -> Result<Pool<L>, NoMemory>
        ensures { IfOk result (λ p. p ≡ record { idle = []; size = size }) }
    {
        Ok(Pool {
            idle: Vec::with_capacity(alloc, size as usize)?,
            size,
        })
    }

    /// How many links are idle: never more than the size.
    pub fn len(&self) -> usize
        ensures { (result ≡ length self.now.idle) × (result ≤ self.now.size) }
    {
        self.idle.len()
    }

    /// The link that was put last; None where none is idle.
    pub fn take(&mut self) -> Option<L>
        ensures last { IfSome result (λ link. self.old ≡ record self.new { idle = self.new.idle ++ link ∷ [] }) }
        ensures none { IfNone result ((self.old.idle ≡ []) × (self.new ≡ self.old)) }
    {
        self.idle.pop()
    }

    /// Puts a link; it comes back exactly where `size` are idle.
    pub fn put(&mut self, link: L) -> Option<L>
        ensures room { length self.old.idle < self.old.size
            → (result ≡ None) × (self.new ≡ record self.old { idle = self.old.idle ++ link ∷ [] }) }
        ensures full { length self.old.idle ≡ self.old.size → (result ≡ Some link) × (self.new ≡ self.old) }
        ensures within { length self.old.idle ≤ self.old.size }
    {
        if self.idle.len() == self.size as usize {
            return Some(link);
        }
        let Ok(()) = self.idle.push(link) else {
            unreachable!()
        };
        None
    }

    /// Takes all idle links, and leaves the pool empty; after a refusal it is as before.
    pub fn take_all(&mut self, alloc: Global) -> Result<LinkList<L>, NoMemory>
        ensures all { IfOk result (λ links. links ≡ self.old.idle) }
        ensures few { IfOk result (λ links. length links < 2 ^ 32) }
        ensures empty { OnOk result (self.new ≡ record self.old { idle = [] }) }
        ensures err { OnErr result (self.new ≡ self.old) }
    {
        let empty = Vec::with_capacity(alloc, self.size as usize)?;
        Ok(LinkList::from_vec(mem::replace(&mut self.idle, empty)))
    }

    /// Puts links in their order while there is room, closes the others, and answers how many it closed.
    pub fn put_all(&mut self, links: LinkList<L>) -> u32
        requires { length links < 2 ^ 32 }
        ensures put { self.new ≡ record self.old { idle = self.old.idle ++ take (self.old.size - length self.old.idle) links } }
        ensures closed { result ≡ length links - (self.old.size - length self.old.idle) }
    {
        let room = self.size as usize - self.idle.len();
        let mut links = links.into_vec();
        let closed = links.len().saturating_sub(room) as u32;
        links.truncate(room);
        let Ok(()) = self.idle.append(&mut links) else {
            unreachable!()
        };
        closed
    }
}

impl<L: Drop> HandedIn<L> {
    /// Closes a link in place of handing it to a pool.
    pub(crate) fn closed(link: L) -> HandedIn<L>
        ensures { (result.link.value ≡ link) × (result.home ≡ None) }
    {
        HandedIn {
            link: Snapshot::of(&link),
            home: None,
        }
    }
}

impl<L: Drop> HomePool<L> {
    /// An empty pool for the links of a member, with the room for all of them.
    pub(crate) fn new(alloc: Global, home: Home, size: u32) -> Result<HomePool<L>, NoMemory>
        ensures { IfOk result (λ p. (p.home ≡ home) × (p.pool ≡ record { idle = []; size = size })) }
    {
        Ok(HomePool {
            home,
            pool: Pool::new(alloc, size)?,
        })
    }

    /// Puts a link of a member, and closes it where the pool is full. A lock doesn't say whose pool lies behind it, so the
    /// pool does, and closes what isn't of its member.
    pub(crate) fn hand_in(&mut self, home: Home, link: L) -> HandedIn<L>
        ensures link { result.link.value ≡ link }
        ensures idle { IfSome result.home (λ at. (at ≡ self.old.home) × (self.new.pool.idle ≡ self.old.pool.idle ++ link ∷ [])) }
        ensures room { home ≡ self.old.home → length self.old.pool.idle < self.old.pool.size → result.home ≡ Some home }
        ensures closed { IfNone result.home (self.new.pool ≡ self.old.pool) }
        ensures whose { IfSome result.home (λ at. at ≡ home) }
        ensures same { (self.new.home ≡ self.old.home) × (self.new.pool.size ≡ self.old.pool.size) }
    {
        if self.home != home {
            return HandedIn::closed(link);
        }
        let handed = Snapshot::of(&link);
        match self.pool.put(link) {
            None => HandedIn {
                link: handed,
                home: Some(home),
            },
            Some(_) => HandedIn {
                link: handed,
                home: None,
            },
        }
    }
}
