//! Two threads that share one pool.
ghost use Rattle.std.specs.Prelude.{◌<◌};
ghost use Rattle.conn_pool.specs.Idle.{HasMember};

use crate::socket_pools::one_pool;
use conn_pool::Pools;
use jk_io::NoMemory;
use std::alloc::Global;
use std::sync::Wait;
use std::thread::{self, Threads};

/// Pools, of which the one of member 0.0 is there.
#[derive(Drop)]
struct KnownPools<'p, 'r, R> {
    pools: &'p Pools<'r, u32, R>,
    ghost known: { HasMember pools.now 0 0 },
}

/// The links that each of two threads has in the end.
#[derive(Drop)]
struct Hands {
    even: Vec<u32>,
    odd: Vec<u32>,
}

fn empty_hands(alloc: Global) -> Result<Hands, NoMemory> {
    Ok(Hands {
        even: Vec::with_capacity(alloc, 50_000)?,
        odd: Vec::with_capacity(alloc, 50_000)?,
    })
}

/// Whether two threads that pass 100,000 links through one pool end with each of them once.
pub fn pass_each_once<R: Threads + Wait + Sync>(rt: &R, alloc: Global) -> bool {
    pass_through_one(rt, alloc) == Ok(true)
}

fn pass_through_one<R: Threads + Wait + Sync>(rt: &R, alloc: Global) -> Result<bool, NoMemory> {
    let sizes = one_pool(alloc, 64)?;
    let pools = Pools::new(rt, alloc, &sizes)?;
    let mut hands = empty_hands(alloc)?;
    pass_into(rt, alloc, &KnownPools { pools: &pools }, &mut hands)
}

fn pass_into<R: Threads + Wait + Sync>(
    rt: &R,
    alloc: Global,
    known: &KnownPools<'_, '_, R>,
    hands: &mut Hands,
) -> Result<bool, NoMemory> {
    let passed = pass_both(rt, known, hands);
    let idle = known.pools.take_all(alloc, 0, 0)?;
    Ok(passed && is_each_once(alloc, hands, idle.as_slice())?)
}

fn pass_both<R: Threads + Wait + Sync>(
    rt: &R,
    known: &KnownPools<'_, '_, R>,
    hands: &mut Hands,
) -> bool {
    let Hands { even, odd } = hands;
    let (first, second) = thread::join(
        rt,
        || pass_through(known, 0, even),
        || pass_through(known, 1, odd),
    );
    first && second
}

/// Puts 50,000 links, `first` and each second one after it, and takes eight after each eight puts. False in want of
/// memory.
fn pass_through<R: Wait>(known: &KnownPools<'_, '_, R>, first: u32, has: &mut Vec<u32>) -> bool
    requires small { first < 2 }
{
    for k in 0..50_000u32 {
        if !put_one(known, 2 * k + first, has) || k % 8 == 7 && !take_eight(known, has) {
            return false;
        }
    }
    true
}

fn put_one<R: Wait>(known: &KnownPools<'_, '_, R>, link: u32, has: &mut Vec<u32>) -> bool {
    match known.pools.put(0, 0, link) {
        Some(link) => has.push(link).is_ok(),
        None => true,
    }
}

/// Takes eight times, and adds the links that came.
fn take_eight<R: Wait>(known: &KnownPools<'_, '_, R>, has: &mut Vec<u32>) -> bool {
    for _ in 0..8 {
        if let Some(link) = known.pools.take(0, 0)
            && has.push(link).is_err()
        {
            return false;
        }
    }
    true
}

/// Counts each link, where it is one of the numbers that `seen` has.
fn count(seen: &mut [u8], links: &[u32]) {
    for link in links {
        if let Some(n) = seen.get_mut(*link as usize) {
            *n = n.saturating_add(1);
        }
    }
}

fn count_all(seen: &mut [u8], hands: &Hands, idle: &[u32]) -> bool {
    count(seen, hands.even.as_slice());
    count(seen, hands.odd.as_slice());
    count(seen, idle);
    seen.iter().all(|n| *n == 1)
}

/// Whether each of 100,000 links is in one of the three lists, once.
fn is_each_once(alloc: Global, hands: &Hands, idle: &[u32]) -> Result<bool, NoMemory> {
    let mut seen = vec![in alloc; 0u8; 100_000]?;
    Ok(count_all(seen.as_mut_slice(), hands, idle))
}
