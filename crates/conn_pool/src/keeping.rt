//! One pool for each balancer and member.
ghost use Rattle.std.specs.Prelude.{◌≡◌, ◌^◌, ◌<◌, ◌≤◌, length, slice_get, Some, IfSome, IfOk};
ghost use Rattle.conn_pool.specs.Idle.{HasMember};

use crate::pool::{HandedIn, Home, LinkList};
use crate::row::{Row, pool_at, size_at};
use jk_io::{NoMemory, SizeTable};
use std::alloc::Global;
use std::marker::Model;
use std::sync::Wait;

/// One pool behind a lock for each balancer and member. A contract sees their sizes.
#[derive(Drop)]
pub struct Pools<'r, L, R> {
    rt: &'r R,
    rows: Vec<Row<L>>,
}

impl<'r, L, R> Model for Pools<'r, L, R> {
    ghost use Rattle.std.specs.Prelude.{List, ℕ, map};

    ghost Value = { List (List ℕ) };

    ghost view = { λ p. map (λ row. row.sizes.items) p.rows.items };
}

impl<'r, L: Drop, R> Pools<'r, L, R> {
    /// Empty pools of these sizes.
    pub fn new(rt: &'r R, alloc: Global, sizes: &SizeTable) -> Result<Pools<'r, L, R>, NoMemory>
        ensures { IfOk result (λ pools. pools ≡ sizes.now) }
    {
        let mut rows = Vec::with_capacity(alloc, sizes.len())?;
        let mut lb: u32 = 0;
        for row in sizes.as_slice() {
            rows.push(Row::new(alloc, lb, row)?)?;
            lb = lb.saturating_add(1);
        }
        Ok(Pools { rt, rows })
    }
}

impl<'r, L: Drop, R: Wait> Pools<'r, L, R> {
    /// The link that was put last for a member, in one hold of its lock. A lock says nothing of what lies behind it.
    pub fn take(&self, lb: u32, member: u32) -> Option<L>
        requires { HasMember self.now lb member }
    {
        pool_at(self.rows.as_slice(), lb, member)
            .lock(self.rt)
            .pool
            .take()
    }

    /// Puts a link for a member, in one hold of its lock; it comes back where the pool is full.
    pub fn put(&self, lb: u32, member: u32, link: L) -> Option<L>
        requires { HasMember self.now lb member }
        ensures { IfSome result (λ back. back ≡ link) }
    {
        pool_at(self.rows.as_slice(), lb, member)
            .lock(self.rt)
            .pool
            .put(link)
    }

    /// Puts a link for a member, in one hold of its lock, and closes it where the pool is full.
    pub fn hand_in(&self, home: Home, link: L) -> HandedIn<L>
        requires { HasMember self.now home.lb home.member }
        ensures link { result.link.value ≡ link }
        ensures whose { IfSome result.home (λ at. at ≡ home) }
    {
        pool_at(self.rows.as_slice(), home.lb, home.member)
            .lock(self.rt)
            .hand_in(home, link)
    }

    /// How many links the pool of a member may have.
    pub(crate) fn size(&self, lb: u32, member: u32) -> u32
        requires { HasMember self.now lb member }
        ensures { IfSome (slice_get self.now lb) (λ sizes. slice_get sizes member ≡ Some result) }
    {
        size_at(self.rows.as_slice(), lb, member)
    }

    /// Takes all idle links of a member, in one hold of its lock.
    pub fn take_all(&self, alloc: Global, lb: u32, member: u32) -> Result<LinkList<L>, NoMemory>
        requires { HasMember self.now lb member }
        ensures few { IfOk result (λ links. length links < 2 ^ 32) }
    {
        pool_at(self.rows.as_slice(), lb, member)
            .lock(self.rt)
            .pool
            .take_all(alloc)
    }

    /// Puts links for a member in their order while there is room, in one hold of its lock, closes the others, and
    /// answers how many it closed.
    pub fn put_all(&self, lb: u32, member: u32, links: LinkList<L>) -> u32
        requires known { HasMember self.now lb member }
        requires few { length links < 2 ^ 32 }
        ensures { result ≤ length links }
    {
        pool_at(self.rows.as_slice(), lb, member)
            .lock(self.rt)
            .pool
            .put_all(links)
    }
}
