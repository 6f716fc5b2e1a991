//! Replies as a client gets them, and answers of the connector's own.
ghost use Rattle.std.specs.Prelude.{IfOk, OnOk};
ghost use Rattle.http_out.specs.Writer.{IsOpenReply};

use check_rows::row::BlockRow;
use check_rows::telling::{put_bytes, put_shown, put_word};
use check_rows::texts::{bytes_of, number, pair_of};
use check_rows::ways::{Way, link_of};
use http_front::HeadLines;
use http_out::{OutError, OwnAnswer, OwnKind, ReplyHead, ReplyWriter, RequestKind, own_answer};
use httpdate::HttpDate;
use jk_io::{Bytes, MemLink, NoMemory};
use std::alloc::Global;

pub fn tell(
    alloc: Global,
    row: BlockRow<'_>,
    bytes: &[u8],
    way: Way,
    out: &mut String,
) -> Result<(), NoMemory> {
    match row.word("kind") {
        "own" => tell_own(row.word("asked"), out),
        "message" => put_end(out, &judged(alloc, bytes)),
        _ => tell_over(alloc, row, way, out),
    }
}

fn tell_over(alloc: Global, row: BlockRow<'_>, way: Way, out: &mut String) -> Result<(), NoMemory> {
    tell_reply(alloc, row, &mut link_of(alloc, &[], way)?, out)
}

/// The answer to HEAD, and what more the answer to another method has; with the moment of the row.
fn tell_own(words: &str, out: &mut String) -> Result<(), NoMemory> {
    let status = number(words.split_once(' ').map_or(words, |cut| cut.0));
    let date = date_in(words);
    let heads = own(status, true, date);
    let wholes = own(status, false, date);
    let head = heads.as_ref().map_or(b"".as_slice(), OwnAnswer::as_slice);
    let whole = wholes.as_ref().map_or(b"".as_slice(), OwnAnswer::as_slice);
    put_bytes(out, head)?;
    put_bytes(out, whole.strip_prefix(head).unwrap_or(&[]))
}

fn own(status: u64, head_only: bool, date: Option<HttpDate>) -> Option<OwnAnswer> {
    let kind = OwnKind { head_only, date };
    match status {
        400 => Some(own_answer(400, kind)),
        403 => Some(own_answer(403, kind)),
        404 => Some(own_answer(404, kind)),
        413 => Some(own_answer(413, kind)),
        431 => Some(own_answer(431, kind)),
        500 => Some(own_answer(500, kind)),
        501 => Some(own_answer(501, kind)),
        502 => Some(own_answer(502, kind)),
        503 => Some(own_answer(503, kind)),
        _ => None,
    }
}

/// The moment after `at=` in these words, in seconds since 1970; none where the word isn't there.
fn date_in(words: &str) -> Option<HttpDate> {
    let (_, rest) = words.split_once("at=")?;
    HttpDate::from_unix_secs(number(rest.split_once(' ').map_or(rest, |cut| cut.0))).ok()
}

/// The request that these words tell of.
fn kind_in(words: &str) -> RequestKind {
    RequestKind {
        old: words.contains("1.0"),
        head_only: words.contains("HEAD"),
        last: words.contains("last"),
        date: date_in(words),
    }
}

fn put_end(out: &mut String, end: &Result<(), OutError>) -> Result<(), NoMemory> {
    match end {
        Ok(()) => put_word(out, "ok"),
        Err(error) => put_shown(out, error),
    }
}

/// What a head with this message is answered.
fn judged(alloc: Global, message: &[u8]) -> Result<(), OutError> {
    let head = head_with(alloc, 200, message, "-")?;
    ReplyWriter::new(alloc, kind_in("")).headers(head)
}

fn head_with(
    alloc: Global,
    status: u16,
    message: &[u8],
    lines: &str,
) -> Result<ReplyHead, NoMemory> {
    let headers = lines_of(alloc, lines)?;
    Ok(ReplyHead {
        status,
        message: Bytes::from_slice(alloc, message)?,
        headers,
    })
}

/// The lines of a list; a head has at most a hundred.
pub fn lines_of(alloc: Global, list: &str) -> Result<HeadLines, NoMemory> {
    let mut lines = HeadLines::new(alloc);
    if list != "-" {
        for item in list.split(" & ") {
            if lines.len() < 100 {
                lines.push(pair_of(alloc, item)?)?;
            }
        }
    }
    Ok(lines)
}

/// What the client gets, and the answer of the last call.
fn tell_reply(
    alloc: Global,
    row: BlockRow<'_>,
    client: &mut MemLink,
    out: &mut String,
) -> Result<(), NoMemory> {
    let end = reply(alloc, row, client, out);
    put_end(out, &end)?;
    put_bytes(out, client.sent())
}

/// After the head each chunk is passed on, and then the end, until a call is refused. Where `goes on` is asked, all calls
/// are made, and each answer is told.
fn reply(
    alloc: Global,
    row: BlockRow<'_>,
    client: &mut MemLink,
    out: &mut String,
) -> Result<(), OutError> {
    let writer = &mut opened(alloc, row)?;
    if row.word("asked").ends_with("goes on") {
        go_on(alloc, writer, row.word("chunks"), client, out)
    } else {
        pass(alloc, writer, row.word("chunks"), client)
    }
}

/// A writer that has taken the row's head.
fn opened(alloc: Global, row: BlockRow<'_>) -> Result<ReplyWriter, OutError>
    ensures { IfOk result (λ writer. IsOpenReply writer) }
{
    let asked = row.word("asked");
    let mut writer = ReplyWriter::new(alloc, kind_in(asked));
    let status = u16::try_from(number(row.word("status"))).unwrap_or(0);
    writer.headers(head_with(alloc, status, b"OK", row.word("lines"))?)?;
    Ok(writer)
}

fn pass_chunks(
    alloc: Global,
    writer: &mut ReplyWriter,
    chunks: &str,
    client: &mut MemLink,
) -> Result<(), OutError>
    requires { IsOpenReply writer.old }
    ensures { OnOk result (IsOpenReply writer.new) }
{
    if chunks == "-" {
        return Ok(());
    }
    for chunk in chunks.split(" & ") {
        writer.chunk(bytes_of(alloc, chunk)?.as_slice(), client)?;
    }
    Ok(())
}

fn pass(
    alloc: Global,
    writer: &mut ReplyWriter,
    chunks: &str,
    client: &mut MemLink,
) -> Result<(), OutError>
    requires { IsOpenReply writer.old }
{
    pass_chunks(alloc, writer, chunks, client)?;
    writer.end(client)
}

/// Passes a chunk on, whatever became of those before it.
fn pass_on(writer: &mut ReplyWriter, chunk: &[u8], client: &mut MemLink) -> Result<(), OutError>
    requires { IsOpenReply writer.old }
    ensures { IsOpenReply writer.new }
{
    writer.chunk(chunk, client)
}

fn tell_chunks(
    alloc: Global,
    writer: &mut ReplyWriter,
    chunks: &str,
    client: &mut MemLink,
    out: &mut String,
) -> Result<(), NoMemory>
    requires { IsOpenReply writer.old }
    ensures { OnOk result (IsOpenReply writer.new) }
{
    for chunk in chunks.split(" & ") {
        let end = pass_on(writer, bytes_of(alloc, chunk)?.as_slice(), client);
        put_end(out, &end)?;
    }
    Ok(())
}

fn go_on(
    alloc: Global,
    writer: &mut ReplyWriter,
    chunks: &str,
    client: &mut MemLink,
    out: &mut String,
) -> Result<(), OutError>
    requires { IsOpenReply writer.old }
{
    tell_chunks(alloc, writer, chunks, client, out)?;
    put_word(out, if writer.passed() { "passed" } else { "kept" })?;
    writer.end(client)
}
