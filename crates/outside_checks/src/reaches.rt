//! Talks over links in memory: when they dial, what is noted after each failing call, and which links come back.
ghost use Rattle.std.specs.Prelude.{◌≡◌, [], ◌∷◌, false, true, IfOk};
ghost use Rattle.conn_pool.specs.Idle.{HasMember};

use crate::counted_dial::CountedDial;
use crate::idle_reach::{IdleReach, TwofoldReach};
use crate::lists::{link_of, one_balancer};
use crate::pools::small;
use check_rows::ask;
use check_rows::row::BlockRow;
use check_rows::telling::{put_bytes, put_count, put_shown, put_word};
use check_rows::texts::numbers_of;
use conn_pool::{Idle, MemTape, PooledReach, Pools};
use jk_io::{
    Bytes, Filled, IoError, ListOf, MemLink, MemLinkList, MemReach, NoMemory, NumberList, Reach,
    Talk, TalkAsked, fill, write_all,
};
use std::alloc::Global;
use std::sync::Wait;

const PONGS: &[u8] = b"pongpongpongpong";

/// What comes of talks with two members, for each of which `size` links may be kept, over two links, the first of which
/// fails as the row tells; and what was noted of the talks.
pub fn tell<R: Wait>(
    rt: &R,
    alloc: Global,
    row: BlockRow<'_>,
    out: &mut String,
) -> Result<(), NoMemory> {
    let size = small(row.word("size"));
    let sizes = one_balancer(alloc, &[size, size])?;
    tell_over(alloc, &Pools::new(rt, alloc, &sizes)?, row, out)
}

/// A link whose reads fail after as many bytes as in `reads`, and whose writes after as many as in `writes`.
fn failing_link(alloc: Global, reads: NumberList, writes: &str) -> Result<MemLink, NoMemory> {
    let writes = numbers_of(alloc, writes)?;
    MemLink::failing_at(alloc, Bytes::from_slice(alloc, PONGS)?, reads, writes)
}

fn first_link(alloc: Global, row: BlockRow<'_>) -> Result<MemLink, NoMemory> {
    failing_link(
        alloc,
        numbers_of(alloc, row.word("reads"))?,
        row.word("writes"),
    )
}

/// Two links with the same bytes to come, the first of which fails as the row tells.
fn two_links(alloc: Global, row: BlockRow<'_>) -> Result<MemLinkList, NoMemory> {
    let mut links = MemLinkList::new(alloc);
    links.push(first_link(alloc, row)?)?;
    links.push(link_of(alloc, PONGS)?)?;
    Ok(links)
}

fn dial_of(alloc: Global, row: BlockRow<'_>) -> Result<CountedDial, NoMemory> {
    let failing = numbers_of(alloc, row.word("dials"))?;
    Ok(CountedDial::new(two_links(alloc, row)?, failing))
}

fn tell_over<R: Wait>(
    alloc: Global,
    pools: &Pools<'_, Idle<MemLink>, R>,
    row: BlockRow<'_>,
    out: &mut String,
) -> Result<(), NoMemory>
    requires { HasMember pools.now 0 1 }
{
    let dial = dial_of(alloc, row)?;
    let reach = PooledReach::new(pools, dial, MemTape::new(alloc));
    let mut twofold = TwofoldReach { reach };
    let told = tell_talks(alloc, &mut twofold, row.word("acts"), out);
    let TwofoldReach { reach } = twofold;
    let (dial, tape) = reach.into_parts();
    tell_noted(told, dial.asked, tape.talks(), out)
}

fn tell_talks<R: Reach>(
    alloc: Global,
    twofold: &mut TwofoldReach<R>,
    acts: &str,
    out: &mut String,
) -> Result<(), NoMemory> {
    for act in acts.split(" & ") {
        tell_talk(alloc, twofold, act, out)?;
    }
    Ok(())
}

/// Whether the link of a talk was new or kept; `none` where the talk didn't begin.
fn tell_talk<R: Reach>(
    alloc: Global,
    twofold: &mut TwofoldReach<R>,
    act: &str,
    out: &mut String,
) -> Result<(), NoMemory> {
    match talk(alloc, twofold, act) {
        Some(true) => put_word(out, "new"),
        Some(false) => put_word(out, "kept"),
        None => put_word(out, "none"),
    }
}

/// A talk with the member whose number an act begins with. `fresh` asks for a new link, `ask` has four bytes sent and
/// four read, and after `close` the link isn't to be kept.
fn talk<R: Reach>(alloc: Global, twofold: &mut TwofoldReach<R>, act: &str) -> Option<bool> {
    let host = Bytes::new(alloc);
    let asked = TalkAsked {
        lb: 0,
        member: if act.starts_with('1') { 1 } else { 0 },
        host: &host,
        port: 8009,
        fresh: act.contains("fresh"),
    };
    let reach = &mut twofold.reach;
    match reach.begin(alloc, &asked) {
        Ok(dialled) => {
            end_talk(reach, act);
            Some(dialled)
        }
        Err(_) => None,
    }
}

fn end_talk<R: Reach>(reach: &mut R, act: &str)
    requires runs { (R.beside reach.old).runs ≡ true }
    ensures idle { (R.beside reach.new).runs ≡ false }
    ensures known { (R.beside reach.new).sizes ≡ (R.beside reach.old).sizes }
{
    if act.contains("ask") {
        let _ = exchange(reach);
    }
    reach.finish(!act.contains("close"));
}

/// Asks, and reads a reply of four bytes.
fn exchange<R: Reach>(reach: &mut R) -> Result<Filled, IoError>
    ensures { R.beside reach.new ≡ R.beside reach.old }
{
    write_all(reach, b"ping")?;
    let mut reply = [0u8; 4];
    Ok(fill(reach, &mut reply))
}

/// How often the dial was asked, and what was noted of each talk.
fn tell_noted(
    told: Result<(), NoMemory>,
    asked: u64,
    talks: &[Talk],
    out: &mut String,
) -> Result<(), NoMemory> {
    told?;
    put_count(out, "dials", asked)?;
    put_talks(talks, out)
}

fn put_talks(talks: &[Talk], out: &mut String) -> Result<(), NoMemory> {
    for talk in talks {
        put_talk(talk, out)?;
    }
    Ok(())
}

fn put_mark(out: &mut String, word: &str, stands: bool) -> Result<(), NoMemory> {
    if stands {
        put_word(out, word)?;
    }
    Ok(())
}

/// Whether a new link was asked for, whether it was one, what was sent and received, and whether it was to be kept.
fn put_talk(talk: &Talk, out: &mut String) -> Result<(), NoMemory> {
    put_word(out, ";")?;
    put_mark(out, "fresh", talk.fresh)?;
    put_mark(out, "new", talk.dialled)?;
    put_bytes(out, talk.sent.as_slice())?;
    put_bytes(out, talk.received.as_slice())?;
    put_mark(out, "keep", talk.keep)
}

/// What three asks of a reach in memory answer. Its begins of `failing` fail, and its link has these bytes to come.
pub fn tell_asks(
    alloc: Global,
    failing: &str,
    bytes: &[u8],
    out: &mut String,
) -> Result<(), NoMemory> {
    let links = one_link(alloc, bytes)?;
    tell_linked(alloc, links, numbers_of(alloc, failing)?, out)
}

fn tell_linked(
    alloc: Global,
    links: MemLinkList,
    failing: NumberList,
    out: &mut String,
) -> Result<(), NoMemory> {
    let reach = MemReach::new(alloc, links, one_size(alloc)?, failing);
    let mut idle = IdleReach { reach };
    ask_thrice(alloc, &mut idle, out)?;
    put_talks(idle.reach.talks(), out)
}

fn one_link(alloc: Global, bytes: &[u8]) -> Result<MemLinkList, NoMemory> {
    let mut links = MemLinkList::new(alloc);
    links.push(link_of(alloc, bytes)?)?;
    Ok(links)
}

/// A balancer with one member.
fn one_size(alloc: Global) -> Result<ListOf<u32>, NoMemory>
    ensures { IfOk result (λ sizes. sizes ≡ 1 ∷ []) }
{
    Ok(ListOf::from_vec(Vec::from_slice(alloc, &[1])?))
}

fn ask_thrice<R: Reach>(
    alloc: Global,
    idle: &mut IdleReach<R>,
    out: &mut String,
) -> Result<(), NoMemory> {
    let host = Bytes::new(alloc);
    let mut buf = [0u8; 8];
    put_shown(out, &ask(alloc, &mut idle.reach, 0, &host, b"?", &mut buf))?;
    put_shown(out, &ask(alloc, &mut idle.reach, 0, &host, b"?", &mut buf))?;
    put_shown(out, &ask(alloc, &mut idle.reach, 0, &host, b"?", &mut buf))
}
