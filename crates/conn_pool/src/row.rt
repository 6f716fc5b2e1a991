//! The pools of one balancer's members.
ghost use Rattle.std.specs.Prelude.{◌≡◌, Some, IfOk, IfSome, map, slice_get, vec_len};
ghost use Rattle.conn_pool.specs.Idle.{HasMember};

use crate::pool::{Home, HomePool};
use jk_io::{NoMemory, SizeList};
use std::alloc::Global;
use std::sync::Mutex;

/// One pool behind a lock for each member, and the sizes that they have.
#[derive(Drop)]
pub(crate) struct Row<L> {
    pub(crate) sizes: Vec<u32>,
    pub(crate) pools: Vec<Mutex<HomePool<L>>>,
    ghost whole: { vec_len pools ≡ vec_len sizes },
}

impl<L: Drop> Row<L> {
    /// Empty pools of these sizes, for the members of balancer `lb` in order.
    pub(crate) fn new(alloc: Global, lb: u32, sizes: &SizeList) -> Result<Row<L>, NoMemory>
        ensures { IfOk result (λ row. row.sizes.items ≡ sizes.now) }
    {
        let mut pools = Vec::with_capacity(alloc, sizes.len())?;
        let mut member: u32 = 0;
        for size in sizes.as_slice() {
            let home = Home { lb, member };
            pools.push(Mutex::new(HomePool::new(alloc, home, *size)?))?;
            member = member.saturating_add(1);
        }
        Ok(Row {
            sizes: Vec::from_slice(alloc, sizes.as_slice())?,
            pools,
        })
    }
}

// The pool of a member of a balancer.
pub(crate) fn pool_at<L>(rows: &[Row<L>], lb: u32, member: u32) -> &Mutex<HomePool<L>>
    requires { HasMember (map (λ row. row.sizes.items) rows.now) lb member }
    ensures { IfSome (slice_get rows.now lb) (λ row. slice_get row.pools.items member ≡ Some result.now) }
{
    &rows[lb as usize].pools[member as usize]
}

// How many links the pool of a member of a balancer may have.
pub(crate) fn size_at<L>(rows: &[Row<L>], lb: u32, member: u32) -> u32
    requires { HasMember (map (λ row. row.sizes.items) rows.now) lb member }
    ensures { IfSome (slice_get rows.now lb) (λ row. slice_get row.sizes.items member ≡ Some result) }
{
    rows[lb as usize].sizes[member as usize]
}
