//! The watch over all pools of a site.
ghost use Rattle.std.specs.Prelude.{◌≡◌, ◌<◌, ◌^◌, length, IfOk, IsSome, IsTrue, Ok, None, ◌↔◌, slice_index};
ghost use Rattle.conn_pool.specs.Idle.{counts, HasMember};
ghost use Rattle.conn_pool.specs.Looks.{AreLooksDue, ends_of};

use crate::judging::judge;
use crate::member_look::{limit_of, ping_of};
use crate::report::WatchReport;
use crate::{Idle, Pools};
use jk_io::{Link, NoMemory};
use site_config::{Config, Endpoint};
use std::alloc::Global;
use std::sync::Wait;

/// When idle links are looked at.
#[derive(Clone, Copy, Debug, PartialEq, Eq)]
pub struct Watch {
    /// The seconds between two looks, above 0.
    pub every: u64,
    /// The most looks that a link may stay idle for, where its member says nothing else.
    pub limit: u32,
    /// The moment of the last looks.
    pub last: u64,
}

/// The pools of a site, its members, and what its watch was before this look.
#[derive(Drop)]
struct Looked<'a, 'p, 'r, L, R> {
    pools: &'a Pools<'r, Idle<L>, R>,
    cfg: &'p Config,
    watch: Watch,
    now: u64,
    ghost every: { 0 < watch.every },
    ghost sizes: { counts pools.now ≡ ends_of cfg.now.lbs },
}

fn is_due(watch: &Watch, now: u64) -> bool
    ensures { IsTrue result ↔ AreLooksDue watch.now now }
{
    match watch.last.checked_add(watch.every) {
        Some(next) => next <= now,
        None => false,
    }
}

/// Looks at the idle links of one member.
fn look_at_member<L: Link + Drop, R: Wait>(
    alloc: Global,
    looked: &Looked<'_, '_, '_, L, R>,
    lb: u32,
    member: u32,
    end: &Endpoint,
) -> Result<WatchReport, NoMemory>
    requires { HasMember looked.now.pools.now lb member }
{
    let links = looked.pools.take_all(alloc, lb, member)?;
    let limit = limit_of(&looked.watch, end);
    let ping = ping_of(end, looked.watch.last, looked.now);
    let (kept, report) = judge(links, limit, ping);
    let _ = looked.pools.put_all(lb, member, kept);
    Ok(report)
}

/// Looks at the idle links of one balancer's members.
fn look_at_balancer<L: Link + Drop, R: Wait>(
    alloc: Global,
    looked: &Looked<'_, '_, '_, L, R>,
    lb: u32,
    ends: &[Endpoint],
) -> Result<WatchReport, NoMemory>
    requires sizes { length ends.now ≡ slice_index (counts looked.now.pools.now) lb }
    requires few { length ends.now < 2 ^ 32 }
{
    let mut report = WatchReport::none();
    let mut member = 0;
    for end in ends {
        report = report.and(look_at_member(alloc, looked, lb, member, end)?);
        member += 1;
    }
    Ok(report)
}

/// Looks at all idle links.
fn look_at_all<L: Link + Drop, R: Wait>(
    alloc: Global,
    looked: &Looked<'_, '_, '_, L, R>,
) -> Result<WatchReport, NoMemory> {
    let mut report = WatchReport::none();
    let mut lb = 0;
    for balancer in looked.cfg.lbs.as_slice() {
        report = report.and(look_at_balancer(alloc, looked, lb, balancer.ends.as_slice())?);
        lb += 1;
    }
    Ok(report)
}

/// Looks at all idle links if it is time. At want of memory the pools that weren't reached are untouched, and the links that
/// were taken before are back.
pub fn watch_if_due<L: Link + Drop, R: Wait>(
    alloc: Global,
    pools: &Pools<'_, Idle<L>, R>,
    cfg: &Config,
    watch: &mut Watch,
    now: u64,
) -> Result<Option<WatchReport>, NoMemory>
    requires every { 0 < watch.old.every }
    requires sizes { counts pools.now ≡ ends_of cfg.now.lbs }
    ensures due { IfOk result (λ report. IsSome report ↔ AreLooksDue watch.old now) }
    ensures looked { AreLooksDue watch.old now → watch.new ≡ record watch.old { last = now } }
    ensures not_due { (AreLooksDue watch.old now → ⊥) → (result ≡ Ok None) × (watch.new ≡ watch.old) }
{
    if !is_due(watch, now) {
        return Ok(None);
    }
    let looked = Looked {
        pools,
        cfg,
        watch: *watch,
        now,
    };
    watch.last = now;
    Ok(Some(look_at_all(alloc, &looked)?))
}
