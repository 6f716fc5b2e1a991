//! How many bytes a second are taken of bodies of 64 KiB by each framing, and written of replies in chunks of 8 KiB.
//!
//! bench/bodies.c does the same in plain C.
ghost use Rattle.std.specs.Prelude.{◌<◌, IfOk, length};
ghost use Rattle.http_front.specs.declared.head_lines.TheConstants.{MAX_HEAD_LINES};
ghost use Rattle.http_out.specs.Writer.{IsOpenReply};

use crate::done::Done;
use crate::feed::Feed;
use http_front::{BodyIn, BodyPlan, HeadLines, Inbox};
use http_out::{OutError, ReplyHead, ReplyWriter, RequestKind};
use jk_io::{Bytes, NoMemory};
use std::alloc::Global;

const BODY_BYTES: usize = 65_536;

const CHUNK_BYTES: usize = 8_192;

/// The data of a body packet that fills the greatest packet of a container.
const PIECE_BYTES: usize = 8_186;

/// No body comes near it.
const MOST_BYTES: u64 = 1 << 40;

static DATA: [u8; BODY_BYTES] = [b'x'; BODY_BYTES];

fn told(bytes: u64) -> Done {
    Done {
        amount: bytes,
        figures: [bytes, 0, 0],
    }
}

/// Adds a chunk as its framing has it.
fn put_chunk(text: &mut Bytes, chunk: &[u8]) -> Result<(), NoMemory> {
    text.extend(b"2000\r\n")?;
    text.extend(chunk)?;
    text.extend(b"\r\n")
}

/// Adds the same body in chunks.
fn put_chunks(text: &mut Bytes) -> Result<(), NoMemory> {
    for chunk in DATA.chunks(CHUNK_BYTES) {
        put_chunk(text, chunk)?;
    }
    text.extend(b"0\r\n\r\n")
}

/// Takes one piece, and answers whether there was one.
fn takes(alloc: Global, body: &mut BodyIn, inbox: &mut Inbox, client: &mut Feed) -> bool {
    match body.take(alloc, inbox, client, PIECE_BYTES) {
        Ok(piece) => !piece.is_empty(),
        Err(_) => false,
    }
}

/// Takes a whole body in pieces, and answers how many bytes of data it has.
fn take_body(alloc: Global, plan: BodyPlan, inbox: &mut Inbox, client: &mut Feed) -> u64 {
    let mut body = BodyIn::new(plan, MOST_BYTES);
    for _ in 0..BODY_BYTES {
        if !takes(alloc, &mut body, inbox, client) {
            break;
        }
    }
    body.taken()
}

fn take_often(
    alloc: Global,
    plan: BodyPlan,
    inbox: &mut Inbox,
    client: &mut Feed,
    rounds: u32,
) -> Done {
    let mut bytes = 0u64;
    for _ in 0..rounds {
        bytes = bytes.saturating_add(take_body(alloc, plan, inbox, client));
    }
    told(bytes)
}

/// Takes bodies of a client that sends a text again and again.
fn take(alloc: Global, plan: BodyPlan, text: &[u8], rounds: u32) -> Option<Done> {
    match Inbox::new(alloc) {
        Ok(mut inbox) => Some(take_often(alloc, plan, &mut inbox, &mut Feed::new(text), rounds)),
        Err(_) => None,
    }
}

pub fn take_by_length(alloc: Global, rounds: u32) -> Option<Done> {
    take(alloc, BodyPlan::Exact(BODY_BYTES as u64), &DATA, rounds)
}

pub fn take_chunks(alloc: Global, rounds: u32) -> Option<Done> {
    let mut text = Bytes::new(alloc);
    match put_chunks(&mut text) {
        Ok(()) => take(alloc, BodyPlan::Chunked, text.as_slice(), rounds),
        Err(NoMemory) => None,
    }
}

fn length_line(alloc: Global) -> Result<(Bytes, Bytes), NoMemory> {
    let name = Bytes::from_slice(alloc, b"Content-Length")?;
    Ok((name, Bytes::from_slice(alloc, b"65536")?))
}

fn put_length(alloc: Global, lines: &mut HeadLines) -> Result<(), NoMemory>
    requires { length lines.old < MAX_HEAD_LINES }
{
    lines.push(length_line(alloc)?)?;
    Ok(())
}

fn lines_of(alloc: Global, is_by_length: bool) -> Result<HeadLines, NoMemory> {
    let mut lines = HeadLines::new(alloc);
    if is_by_length {
        put_length(alloc, &mut lines)?;
    }
    Ok(lines)
}

/// A head, with a length or without one.
fn head(alloc: Global, is_by_length: bool) -> Result<ReplyHead, NoMemory> {
    let headers = lines_of(alloc, is_by_length)?;
    Ok(ReplyHead {
        status: 200,
        message: Bytes::from_slice(alloc, b"OK")?,
        headers,
    })
}

/// A request of HTTP/1.1, whose reply tells no moment.
const KIND: RequestKind = RequestKind {
    old: false,
    head_only: false,
    last: false,
    date: None,
};

/// A writer that has taken a head.
fn opened(alloc: Global, is_by_length: bool) -> Result<ReplyWriter, OutError>
    ensures { IfOk result (λ writer. IsOpenReply writer) }
{
    let mut writer = ReplyWriter::new(alloc, KIND);
    writer.headers(head(alloc, is_by_length)?)?;
    Ok(writer)
}

/// Passes a body on in chunks, and ends it.
fn pass(writer: &mut ReplyWriter, client: &mut Feed) -> Result<(), OutError>
    requires { IsOpenReply writer.old }
{
    for chunk in DATA.chunks(CHUNK_BYTES) {
        writer.chunk(chunk, client)?;
    }
    writer.end(client)
}

/// Writes a reply in chunks, and answers how many bytes of data it has.
fn write_reply(alloc: Global, is_by_length: bool, client: &mut Feed) -> u64 {
    match opened(alloc, is_by_length) {
        Ok(mut writer) => match pass(&mut writer, client) {
            Ok(()) => BODY_BYTES as u64,
            Err(_) => 0,
        },
        Err(_) => 0,
    }
}

fn write_often(alloc: Global, is_by_length: bool, client: &mut Feed, rounds: u32) -> Done {
    let mut bytes = 0u64;
    for _ in 0..rounds {
        bytes = bytes.saturating_add(write_reply(alloc, is_by_length, client));
    }
    told(bytes)
}

/// Writes replies to a client.
pub fn write(alloc: Global, is_by_length: bool, rounds: u32) -> Option<Done> {
    Some(write_often(alloc, is_by_length, &mut Feed::new(&[]), rounds))
}
