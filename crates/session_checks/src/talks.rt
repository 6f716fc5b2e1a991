//! Talks of the connector with a container.
ghost use Rattle.std.specs.Prelude.{◌≡◌, ◌<◌, ◌≤◌, None, length, IfOk};
ghost use Rattle.ajp_talk.specs.Ends.{IsPlan};
ghost use Rattle.http_front.specs.State.{taken_of, failed_of};

use crate::told::put_awaited;
use ajp_talk::{TalkLimits, TalkPlan, talk};
use check_rows::row::BlockRow;
use check_rows::telling::{put_bytes, put_count, put_shown, put_word};
use check_rows::texts::number;
use check_rows::ways::{Way, link_of, writing};
use http_front::{BodyFault, BodyIn, BodyPlan, Inbox};
use jk_io::{Bytes, NoMemory, NumberList, PatientLink};
use lb_model::FailList;
use std::alloc::Global;

/// The Forward Request of `GET /` for the host localhost from 127.0.0.1.
const FORWARD: [u8; 77] =
    *b"\x12\x34\x00\x49\x02\x02\x00\x08HTTP/1.1\x00\x00\x01/\x00\x00\x09127.0.0.1\x00\x00\x09127.0.0.1\x00\x00\x09localhost\x00\x00\x50\x00\x00\x01\xa0\x0b\x00\x09localhost\x00\xff";

const CPING: [u8; 5] = *b"\x12\x34\x00\x01\x0a";

/// The most bytes of a piece where a packet has 8,192.
const PIECE: usize = 8_186;

/// A limit that no data reach.
const NO_LIMIT: u64 = 1 << 40;

/// A client's body, and the client's bytes that were read and not used.
#[derive(Drop)]
struct Reading {
    body: BodyIn,
    inbox: Inbox,
}

pub fn tell(
    alloc: Global,
    row: BlockRow<'_>,
    bytes: &[u8],
    way: Way,
    out: &mut String,
) -> Result<(), NoMemory> {
    let line = link_of(alloc, bytes, way)?;
    let never = NumberList::new(alloc);
    tell_line(
        alloc,
        row,
        &mut PatientLink::new(alloc, line, NumberList::new(alloc), never),
        out,
    )
}

fn tell_line(
    alloc: Global,
    row: BlockRow<'_>,
    line: &mut PatientLink,
    out: &mut String,
) -> Result<(), NoMemory> {
    tell_between(alloc, row, line, &mut client_of(alloc, row)?, out)
}

fn tell_between(
    alloc: Global,
    row: BlockRow<'_>,
    line: &mut PatientLink,
    client: &mut PatientLink,
    out: &mut String,
) -> Result<(), NoMemory> {
    let words = row.word("words");
    tell_talk(
        alloc,
        words,
        &mut reading_of(alloc, row.word("plan"))?,
        line,
        client,
        out,
    )
}

/// How a body is framed: `none`, `chunked`, or its length.
fn plan_of(word: &str) -> BodyPlan {
    match word {
        "none" => BodyPlan::None,
        "chunked" => BodyPlan::Chunked,
        length => BodyPlan::Exact(number(length)),
    }
}

/// The number after this word of a plan; None where the word isn't there.
fn said(plan: &str, word: &str) -> Option<u64> {
    let (_, rest) = plan.split_once(word)?;
    Some(number(rest.split_once(' ').map_or(rest, |cut| cut.0)))
}

fn reading_of(alloc: Global, plan: &str) -> Result<Reading, NoMemory>
    ensures fresh { IfOk result (λ reading. taken_of reading.body ≡ 0) }
    ensures going { IfOk result (λ reading. failed_of reading.body ≡ None) }
{
    Ok(Reading {
        body: BodyIn::new(plan_of(plan), NO_LIMIT),
        inbox: Inbox::new(alloc)?,
    })
}

/// A client with these bytes to come, whose write or first flush fails where the plan says so.
fn client_of(alloc: Global, row: BlockRow<'_>) -> Result<PatientLink, NoMemory> {
    let plan = row.word("words");
    let way = writing(said(plan, "client="));
    let link = link_of(alloc, row.bytes(alloc, "client")?.as_slice(), way)?;
    let mut failing = NumberList::new(alloc);
    if plan.contains("unflushed") {
        failing.push(0)?;
    }
    Ok(PatientLink::new(alloc, link, NumberList::new(alloc), failing))
}

fn limit(most: Option<u64>) -> u64
    ensures some { 0 < result }
    ensures most { result ≤ NO_LIMIT }
{
    match most {
        Some(most) if most > 0 => most.min(NO_LIMIT),
        _ => NO_LIMIT,
    }
}

/// The status on which the talk fails, if the plan has one.
fn fails_of(alloc: Global, status: Option<u64>) -> Result<FailList, NoMemory> {
    let mut list = FailList::new(alloc);
    if let Some(status) = status {
        list.push((u16::try_from(status).unwrap_or(0), false))?;
    }
    Ok(list)
}

fn forward(alloc: Global) -> Result<Bytes, NoMemory>
    ensures { IfOk result (λ bytes. bytes ≡ FORWARD) }
{
    Bytes::from_slice(alloc, &FORWARD)
}

fn planned(alloc: Global, words: &str, first: Bytes) -> Result<TalkPlan, NoMemory>
    requires { length first ≤ PIECE }
    ensures plan { IfOk result IsPlan }
    ensures first { IfOk result (λ plan. plan.first ≡ first) }
{
    Ok(TalkPlan {
        forward: forward(alloc)?,
        first,
        piece: PIECE as u32,
        packet: 8_192,
        ping: words.contains("ping"),
        most: limit(said(words, "most=")),
        old: false,
        head_only: false,
        last: false,
        date: None,
        close_on_client: words.contains("close"),
        fail_on: fails_of(alloc, said(words, "fail="))?,
        limits: TalkLimits {
            pong: said(words, "pong=").unwrap_or(0),
            reply: said(words, "reply=").unwrap_or(0),
        },
    })
}

/// The first piece of a body of which nothing was taken.
fn first_piece(
    alloc: Global,
    reading: &mut Reading,
    client: &mut PatientLink,
    n: usize,
) -> Result<Bytes, BodyFault>
    requires none { taken_of reading.old.body ≡ 0 }
    requires going { failed_of reading.old.body ≡ None }
    ensures taken { IfOk result (λ piece. taken_of reading.new.body ≡ length piece) }
    ensures short { IfOk result (λ piece. length piece ≤ PIECE) }
    ensures going { IfOk result (λ piece. failed_of reading.new.body ≡ None) }
{
    if n == 0 {
        return Ok(Bytes::new(alloc));
    }
    reading
        .body
        .take(alloc, &mut reading.inbox, client, n.min(PIECE))
}

fn tell_talk(
    alloc: Global,
    words: &str,
    reading: &mut Reading,
    line: &mut PatientLink,
    client: &mut PatientLink,
    out: &mut String,
) -> Result<(), NoMemory>
    requires fresh { taken_of reading.old.body ≡ 0 }
    requires going { failed_of reading.old.body ≡ None }
{
    let n = said(words, "first=").unwrap_or(0) as usize;
    match first_piece(alloc, reading, client, n) {
        Ok(first) => run(
            alloc,
            &planned(alloc, words, first)?,
            reading,
            line,
            client,
            out,
        )?,
        Err(fault) => put_shown(out, &fault)?,
    }
    if words.contains("awaits") {
        put_awaited("line", line, out)?;
        put_awaited("client", client, out)?;
    }
    Ok(())
}

fn run(
    alloc: Global,
    plan: &TalkPlan,
    reading: &mut Reading,
    line: &mut PatientLink,
    client: &mut PatientLink,
    out: &mut String,
) -> Result<(), NoMemory>
    requires plan { IsPlan plan.now }
    requires first { taken_of reading.old.body ≡ length plan.now.first }
    requires going { failed_of reading.old.body ≡ None }
{
    let inbox = &mut reading.inbox;
    let end = talk(alloc, plan, &mut reading.body, inbox, line, client)?;
    put_shown(out, &end)?;
    put_sent(plan.ping, line.link().sent(), out)?;
    put_word(out, "written")?;
    put_bytes(out, client.link().sent())
}

/// How many bytes stand at the front of both.
fn common(left: &[u8], right: &[u8]) -> usize {
    let mut same = 0usize;
    for (a, b) in left.iter().zip(right) {
        if a != b {
            return same;
        }
        same = same.saturating_add(1);
    }
    same
}

/// How many bytes of CPing and the Forward Request were sent.
fn opening_of(ping: bool, sent: &[u8]) -> usize {
    if !ping {
        return common(sent, &FORWARD);
    }
    let cping = common(sent, &CPING);
    cping.saturating_add(common(sent.get(CPING.len()..).unwrap_or(&[]), &FORWARD))
}

/// Adds how many bytes of CPing and the Forward Request were sent, and what was sent after them.
fn put_sent(ping: bool, sent: &[u8], out: &mut String) -> Result<(), NoMemory> {
    let opening = opening_of(ping, sent);
    put_count(out, "sent", opening as u64)?;
    put_bytes(out, sent.get(opening..).unwrap_or(&[]))
}
