//! Idle links that are judged.
ghost use Rattle.conn_pool.specs.Idle.{HasMember};

use crate::lists::one_balancer;
use check_rows::row::BlockRow;
use check_rows::telling::{put_bytes, put_count};
use check_rows::texts::{bytes_of, number};
use conn_pool::{Idle, LinkList, NoTape, PooledReach, Pools, WatchReport, judge};
use jk_io::{Bytes, ListOf, MemDial, MemLink, MemLinkList, NoMemory, Reach, TalkAsked};
use std::alloc::Global;
use std::sync::Wait;

/// The most links that a row has.
const MOST_LINKS: usize = 100;

/// A link that has these bytes to come, after a talk in which no call of it was made.
fn after_talk<R: Wait>(
    alloc: Global,
    pools: &Pools<'_, Idle<MemLink>, R>,
    bytes: Bytes,
) -> Result<LinkList<Idle<MemLink>>, NoMemory>
    requires { HasMember pools.now 0 0 }
{
    let mut dialled = MemLinkList::new(alloc);
    dialled.push(MemLink::new(alloc, bytes, ListOf::new(alloc)))?;
    let dial = MemDial::new(dialled, ListOf::new(alloc));
    let mut reach = PooledReach::new(pools, dial, NoTape);
    let host = Bytes::new(alloc);
    let asked = TalkAsked {
        lb: 0,
        member: 0,
        host: &host,
        port: 8009,
        fresh: false,
    };
    if reach.begin(alloc, &asked).is_ok() {
        reach.finish(true);
    }
    pools.take_all(alloc, 0, 0)
}

/// Links after one look more, at which each is kept.
fn looked_at(links: LinkList<Idle<MemLink>>) -> LinkList<Idle<MemLink>> {
    if links.len() > MOST_LINKS {
        return links;
    }
    judge(links, u32::MAX, None).0
}

/// `ROUNDS BYTES`: adds a link, with the looks since its talk and what it has to come.
fn add_link<R: Wait>(
    rt: &R,
    alloc: Global,
    text: &str,
    links: &mut LinkList<Idle<MemLink>>,
) -> Result<(), NoMemory> {
    let (rounds, bytes) = text.split_once(' ').unwrap_or((text, ""));
    let sizes = one_balancer(alloc, &[1])?;
    let pools = Pools::new(rt, alloc, &sizes)?;
    let mut idle = after_talk(alloc, &pools, bytes_of(alloc, bytes)?)?;
    for _ in 0..number(rounds) {
        idle = looked_at(idle);
    }
    for link in idle.into_vec() {
        links.push(link)?;
    }
    Ok(())
}

fn links_of<R: Wait>(
    rt: &R,
    alloc: Global,
    list: &str,
) -> Result<LinkList<Idle<MemLink>>, NoMemory> {
    let mut links = LinkList::new(alloc);
    for text in list.split(" & ") {
        add_link(rt, alloc, text, &mut links)?;
    }
    Ok(links)
}

fn put_report(out: &mut String, report: WatchReport) -> Result<(), NoMemory> {
    put_count(out, "aged", u64::from(report.aged))?;
    put_count(out, "dead", u64::from(report.dead))?;
    put_count(out, "wanted", u64::from(report.wanted))?;
    put_count(out, "kept", u64::from(report.kept))
}

fn put_links(out: &mut String, links: &[Idle<MemLink>]) -> Result<(), NoMemory> {
    for idle in links {
        put_count(out, "rounds", u64::from(idle.looks()))?;
        put_bytes(out, idle.link().sent())?;
    }
    Ok(())
}

fn judge_links(
    out: &mut String,
    links: LinkList<Idle<MemLink>>,
    limit: u32,
    ping: Option<u64>,
) -> Result<(), NoMemory> {
    if links.len() > MOST_LINKS {
        return Ok(());
    }
    let (kept, report) = judge(links, limit, ping);
    put_report(out, report)?;
    put_links(out, kept.as_slice())
}

/// What becomes of the links of a row, and the kept ones with what they sent.
pub fn tell<R: Wait>(
    rt: &R,
    alloc: Global,
    row: BlockRow<'_>,
    out: &mut String,
) -> Result<(), NoMemory> {
    let limit = u32::try_from(row.amount(alloc, "limit")?).unwrap_or(0);
    let ping = if row.word("ping") == "ping" {
        Some(1000)
    } else {
        None
    };
    judge_links(out, links_of(rt, alloc, row.word("links"))?, limit, ping)
}
