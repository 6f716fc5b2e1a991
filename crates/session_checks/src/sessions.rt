//! One session over memory.
ghost use Rattle.std.specs.Prelude.{◌≡◌, true, None, length, IfOk};
ghost use Rattle.exchange.specs.Requests.{sizes_of as sizes_in};
ghost use Rattle.site_mounts.specs.Sites.{stands_in};

use crate::sites::{config_of, map_of};
use crate::start::desk_of;
use crate::told::{put_awaited, put_balancer, put_rows, put_talks};
use check_rows::row::BlockRow;
use check_rows::telling::{part, put_bytes, put_faults, put_word};
use check_rows::texts::number;
use check_rows::ways::{Way, link_of, writing};
use client_session::{SessionEnd, SessionSite, SessionStop, Surroundings, serve_session};
use http_front::Inbox;
use jk_io::{
    Bytes, MemLink, MemLinkList, MemReach, NoMemory, NumberList, PatientLink, Peer, StepClock,
};
use lb_book::PlainDesk;
use lb_model::{Served, ServedList};
use site_config::Config;
use site_mounts::UriMap;
use site_reports::member_counts;
use std::alloc::Global;
use std::fmt::Write;

/// A row, and how its bytes come: those of the client, or those of the first link.
#[derive(Clone, Copy)]
struct SessionRow<'t> {
    row: BlockRow<'t>,
    bytes: &'t [u8],
    way: Way,
    of_member: bool,
}

/// A row and its site, whose map stands over its balancers.
#[derive(Clone, Copy)]
struct Case<'t> {
    row: SessionRow<'t>,
    config: &'t Config,
    map: &'t UriMap,
    ghost stands: { stands_in config.now map.now ≡ true },
}

/// A case, and the desk with which its session starts.
struct CaseStart<'t> {
    case: Case<'t>,
    desk: PlainDesk,
    ghost sizes: { desk.sizes ≡ sizes_in case.config.now.lbs },
    ghost anyone: { desk.caller ≡ None },
}

/// A case, and the desk and the reach that its session leaves.
#[derive(Drop)]
struct CaseLeft<'t> {
    case: Case<'t>,
    desk: PlainDesk,
    reach: MemReach,
    ghost sizes: { desk.sizes ≡ sizes_in case.config.now.lbs },
}

/// A session whose client's bytes come in the row's ways.
pub fn tell_client(
    alloc: Global,
    row: BlockRow<'_>,
    bytes: &[u8],
    way: Way,
    out: &mut String,
) -> Result<(), NoMemory> {
    let of_member = false;
    let row = SessionRow {
        row,
        bytes,
        way,
        of_member,
    };
    tell(alloc, row, out)
}

/// A session whose first link's bytes come in the row's ways.
pub fn tell_member(
    alloc: Global,
    row: BlockRow<'_>,
    bytes: &[u8],
    way: Way,
    out: &mut String,
) -> Result<(), NoMemory> {
    let of_member = true;
    let row = SessionRow {
        row,
        bytes,
        way,
        of_member,
    };
    tell(alloc, row, out)
}

/// The number after this word of a row; None where the word isn't there.
fn said(words: &str, word: &str) -> Option<u64> {
    let (_, rest) = words.split_once(word)?;
    Some(number(rest.split_once(' ').map_or(rest, |cut| cut.0)))
}

/// A list of this number, if there is one.
fn numbers_of(alloc: Global, number: Option<u64>) -> Result<NumberList, NoMemory> {
    let mut numbers = NumberList::new(alloc);
    if let Some(number) = number {
        numbers.push(number)?;
    }
    Ok(numbers)
}

/// A client with the bytes of a row to come, whose write fails where the row says so.
fn client_with(alloc: Global, row: BlockRow<'_>) -> Result<MemLink, NoMemory> {
    let way = writing(said(row.word("words"), "client="));
    link_of(alloc, row.bytes(alloc, "client")?.as_slice(), way)
}

/// What the client of a row sends, and what goes to it.
fn line_of(alloc: Global, row: SessionRow<'_>) -> Result<MemLink, NoMemory> {
    if row.of_member {
        client_with(alloc, row.row)
    } else {
        link_of(alloc, row.bytes, row.way)
    }
}

/// The client of a row, which waits and fails to take a flush where the row says so.
fn client_of(alloc: Global, row: SessionRow<'_>) -> Result<PatientLink, NoMemory> {
    let words = row.row.word("words");
    let pauses = numbers_of(alloc, said(words, "waits="))?;
    let unflushed = numbers_of(alloc, said(words, "unflushed="))?;
    Ok(PatientLink::new(alloc, line_of(alloc, row)?, pauses, unflushed))
}

fn push_bytes(alloc: Global, links: &mut MemLinkList, row: SessionRow<'_>) -> Result<(), NoMemory> {
    links.push(link_of(alloc, row.bytes, row.way)?)?;
    Ok(())
}

fn push_link(alloc: Global, links: &mut MemLinkList, bytes: Bytes) -> Result<(), NoMemory> {
    links.push(MemLink::new(alloc, bytes, NumberList::new(alloc)))?;
    Ok(())
}

/// Adds the links that have a line of their own, in the order in which they are dialled.
fn push_links(alloc: Global, links: &mut MemLinkList, row: BlockRow<'_>) -> Result<(), NoMemory> {
    for place in 0..row.count("link") {
        push_link(alloc, links, row.bytes_at(alloc, "link", place)?)?;
    }
    Ok(())
}

/// The links of a row.
fn links_of(alloc: Global, row: SessionRow<'_>) -> Result<MemLinkList, NoMemory> {
    let mut links = MemLinkList::new(alloc);
    if row.of_member {
        push_bytes(alloc, &mut links, row)?;
    }
    push_links(alloc, &mut links, row.row)?;
    Ok(links)
}

/// What comes out of a row's session.
fn tell(alloc: Global, row: SessionRow<'_>, out: &mut String) -> Result<(), NoMemory> {
    match config_of(alloc, &row.row.bytes(alloc, "workers")?)? {
        Some(config) => tell_site(alloc, row, &config, out),
        None => put_word(out, "workers refused"),
    }
}

fn tell_site(
    alloc: Global,
    row: SessionRow<'_>,
    config: &Config,
    out: &mut String,
) -> Result<(), NoMemory> {
    match map_of(alloc, &row.row.bytes(alloc, "map")?, config)? {
        Some(map) => tell_mapped(alloc, row, config, &map, out),
        None => put_word(out, "map refused"),
    }
}

fn tell_mapped(
    alloc: Global,
    row: SessionRow<'_>,
    config: &Config,
    map: &UriMap,
    out: &mut String,
) -> Result<(), NoMemory>
    requires stands { stands_in config.now map.now ≡ true }
{
    tell_case(alloc, Case { row, config, map }, out)
}

fn tell_case(alloc: Global, case: Case<'_>, out: &mut String) -> Result<(), NoMemory> {
    let first = said(case.row.row.word("words"), "first=").unwrap_or(0);
    let desk = desk_of(alloc, case.config.lbs.as_slice(), first)?;
    let mut client = client_of(alloc, case.row)?;
    tell_over(alloc, CaseStart { case, desk }, &mut client, out)
}

fn reach_of(alloc: Global, case: &Case<'_>) -> Result<MemReach, NoMemory>
    ensures sizes { IfOk result (λ reach. reach.sizes ≡ sizes_in case.now.config.now.lbs) }
    ensures idle { IfOk result (λ reach. reach.book.begun ≡ None) }
{
    let links = links_of(alloc, case.row)?;
    let failing = numbers_of(alloc, said(case.row.row.word("words"), "dial="))?;
    let sizes = member_counts(alloc, case.config.lbs.as_slice())?;
    Ok(MemReach::new(alloc, links, sizes, failing))
}

/// Serves the session, and tells what it did.
fn tell_over(
    alloc: Global,
    start: CaseStart<'_>,
    client: &mut PatientLink,
    out: &mut String,
) -> Result<(), NoMemory> {
    let CaseLeft {
        case,
        mut desk,
        reach,
    } = serve(alloc, start, client, out)?;
    put_rest(&case, &mut desk, &reach, client, out)
}

/// A client on this machine.
fn local(alloc: Global) -> Result<Peer, NoMemory> {
    Ok(Peer {
        addr: Bytes::from_slice(alloc, b"127.0.0.1")?,
    })
}

fn serve<'t>(
    alloc: Global,
    start: CaseStart<'t>,
    client: &mut PatientLink,
    out: &mut String,
) -> Result<CaseLeft<'t>, NoMemory> {
    let mut rows = ServedList::new(alloc);
    let (end, left) = serve_into(alloc, start, client, &mut rows)?;
    put_end(end, rows.as_slice(), out)?;
    Ok(left)
}

fn put_end(end: SessionEnd, rows: &[Served], out: &mut String) -> Result<(), NoMemory> {
    put_stop(end, out)?;
    put_rows(rows, out)
}

/// How the session ended.
fn put_stop(end: SessionEnd, out: &mut String) -> Result<(), NoMemory> {
    let SessionEnd { requests, stop } = end;
    part(out)?;
    match stop {
        SessionStop::Closed(why) => write!(out, "Closed {{ requests: {requests}, why: {why:?} }}")?,
        SessionStop::ClientFault => write!(out, "ClientFault {{ requests: {requests} }}")?,
        SessionStop::Truncated => write!(out, "Truncated {{ requests: {requests} }}")?,
        SessionStop::Stray {
            ticket,
            returned_at,
        } => write!(
            out,
            "Stray {{ ticket: {ticket}, returned_at: {returned_at:?} }}"
        )?,
        SessionStop::NoMemory => out.push_str("NoMemory")?,
    }
    Ok(())
}

/// The session's end, and what it leaves. Adds its rows.
fn serve_into<'t>(
    alloc: Global,
    start: CaseStart<'t>,
    client: &mut PatientLink,
    rows: &mut ServedList,
) -> Result<(SessionEnd, CaseLeft<'t>), NoMemory> {
    let CaseStart { case, mut desk } = start;
    let mut reach = reach_of(alloc, &case)?;
    let peer = local(alloc)?;
    let at = said(case.row.row.word("words"), "dated=");
    let mut clock = StepClock::new(numbers_of(alloc, at)?);
    let mut inbox = Inbox::new(alloc)?;
    let site = SessionSite {
        cfg: case.config,
        map: case.map,
        session: 0,
        peer: &peer,
        dated: at.is_some(),
    };
    let mut around = Surroundings {
        desk: &mut desk,
        clock: &mut clock,
        reach: &mut reach,
        client,
        inbox: &mut inbox,
    };
    let end = serve_session(alloc, &site, &mut around, rows);
    Ok((end, CaseLeft { case, desk, reach }))
}

fn put_balancers(case: &Case<'_>, desk: &mut PlainDesk, out: &mut String) -> Result<(), NoMemory>
    requires { desk.old.sizes ≡ sizes_in case.now.config.now.lbs }
{
    let mut place = 0;
    for _lb in case.config.lbs.as_slice() {
        put_balancer(desk, place, out)?;
        place += 1;
    }
    Ok(())
}

/// Adds the talks, what the client got, and what is to be seen of the balancers.
fn put_rest(
    case: &Case<'_>,
    desk: &mut PlainDesk,
    reach: &MemReach,
    client: &PatientLink,
    out: &mut String,
) -> Result<(), NoMemory>
    requires { desk.old.sizes ≡ sizes_in case.now.config.now.lbs }
{
    put_talks(reach.talks(), out)?;
    put_word(out, "client")?;
    put_bytes(out, client.link().sent())?;
    put_faults(out, client.link().faults())?;
    put_balancers(case, desk, out)?;
    if case.row.row.word("words").contains("awaits") {
        put_awaited("client", client, out)?;
    }
    Ok(())
}
