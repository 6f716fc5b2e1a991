//! Pools of members behind locks: each has its own size, and its own links.
ghost use Rattle.std.specs.Prelude.{◌≡◌, [], ◌∷◌, IfOk};
ghost use Rattle.conn_pool.specs.Idle.{HasMember};

use crate::lists::push_sizes;
use crate::pools::{links_of, small};
use check_rows::telling::put_shown;
use conn_pool::{LinkList, Pools};
use jk_io::{NoMemory, SizeTable};
use std::alloc::Global;
use std::sync::Wait;

/// The most links that a row puts at once.
const MOST_LINKS: usize = 100;

/// What comes of calls of the pools of two balancers: the first has two members, with places for one link and for two,
/// the second one, with places for three.
pub fn tell<R: Wait>(rt: &R, alloc: Global, acts: &str, out: &mut String) -> Result<(), NoMemory> {
    let sizes = sizes(alloc)?;
    let pools = Pools::new(rt, alloc, &sizes)?;
    for act in acts.split(" & ") {
        do_act(alloc, &pools, act, out)?;
    }
    Ok(())
}

fn sizes(alloc: Global) -> Result<SizeTable, NoMemory>
    ensures { IfOk result (λ table. table ≡ (1 ∷ 2 ∷ []) ∷ (3 ∷ []) ∷ []) }
{
    let mut sizes = SizeTable::new(alloc);
    push_sizes(&mut sizes, &[1, 2])?;
    push_sizes(&mut sizes, &[3])?;
    Ok(sizes)
}

/// Does an act, which begins with its balancer and member.
fn do_act<R: Wait>(
    alloc: Global,
    pools: &Pools<'_, u32, R>,
    act: &str,
    out: &mut String,
) -> Result<(), NoMemory>
    requires { pools.now ≡ (1 ∷ 2 ∷ []) ∷ (3 ∷ []) ∷ [] }
{
    let (member, act) = act.split_once(' ').unwrap_or((act, "take"));
    match member {
        "0.0" => do_with(alloc, pools, 0, 0, act, out),
        "0.1" => do_with(alloc, pools, 0, 1, act, out),
        _ => do_with(alloc, pools, 1, 0, act, out),
    }
}

/// `put L` puts a link, `puts L M ..` links, `take` and `takes` take one and all.
fn do_with<R: Wait>(
    alloc: Global,
    pools: &Pools<'_, u32, R>,
    lb: u32,
    member: u32,
    act: &str,
    out: &mut String,
) -> Result<(), NoMemory>
    requires { HasMember pools.now lb member }
{
    match act.split_once(' ') {
        Some(("put", link)) => put_shown(out, &pools.put(lb, member, small(link))),
        Some((_, links)) => {
            let closed = put_all(pools, lb, member, links_of(alloc, links)?);
            put_shown(out, &closed)
        }
        None if act == "take" => put_shown(out, &pools.take(lb, member)),
        None => put_shown(out, &pools.take_all(alloc, lb, member)?.as_slice()),
    }
}

fn put_all<R: Wait>(pools: &Pools<'_, u32, R>, lb: u32, member: u32, links: LinkList<u32>) -> u32
    requires { HasMember pools.now lb member }
{
    if links.len() > MOST_LINKS {
        return 0;
    }
    pools.put_all(lb, member, links)
}
