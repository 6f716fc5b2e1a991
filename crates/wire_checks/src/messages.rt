//! Messages of a container, read and written.
ghost use Rattle.std.specs.Prelude.{IsTrue};
ghost use Rattle.ajp_reply.specs.Spelling.{IsMessage};

use ajp_reply::{Message, ReplyParts, decode_reply, encode_reply};
use ajp_wire::{EncodeError, HeadPairs, MAX_HEADERS};
use check_rows::row::BlockRow;
use check_rows::telling::{put_bytes, put_count, put_shown};
use jk_io::{Bytes, NoMemory};
use std::alloc::Global;

pub fn tell(
    alloc: Global,
    row: BlockRow<'_>,
    bytes: &[u8],
    out: &mut String,
) -> Result<(), NoMemory> {
    match row.word("kind") {
        "payload" => tell_payload(alloc, bytes, out),
        _ => tell_written(alloc, row, out),
    }
}

/// What is read in a payload.
pub fn tell_payload(alloc: Global, payload: &[u8], out: &mut String) -> Result<(), NoMemory> {
    put_shown(out, &decode_reply(alloc, payload))
}

fn tell_written(alloc: Global, row: BlockRow<'_>, out: &mut String) -> Result<(), NoMemory> {
    let most = u32::try_from(row.amount(alloc, "most")?).unwrap_or(u32::MAX);
    let whole = row.word("kind") == "message";
    tell_message(alloc, whole, &message(alloc, row)?, most, out)
}

fn tell_message(
    alloc: Global,
    whole: bool,
    message: &Message,
    most: u32,
    out: &mut String,
) -> Result<(), NoMemory> {
    put_packet(out, whole, &packet(alloc, message, most))
}

/// Adds a packet, or how many bytes it has, or why it isn't made.
pub fn put_packet(
    out: &mut String,
    whole: bool,
    packet: &Result<Bytes, EncodeError>,
) -> Result<(), NoMemory> {
    match packet {
        Ok(packet) if whole => put_bytes(out, packet.as_slice()),
        Ok(packet) => put_count(out, "length", packet.len() as u64),
        Err(error) => put_shown(out, error),
    }
}

fn message(alloc: Global, row: BlockRow<'_>) -> Result<Message, NoMemory> {
    match row.word("of") {
        "head" => head(alloc, row),
        "chunk" => Ok(Message::Chunk(row.bytes(alloc, "bytes")?)),
        "ask" => Ok(Message::Ask(u16::try_from(row.amount(alloc, "number")?).unwrap_or(0))),
        "end" => Ok(Message::End {
            reuse: row.word("reuse") == "true",
        }),
        _ => Ok(Message::Pong),
    }
}

fn head(alloc: Global, row: BlockRow<'_>) -> Result<Message, NoMemory> {
    Ok(Message::Headers(ReplyParts {
        status: u16::try_from(row.amount(alloc, "status")?).unwrap_or(0),
        message: row.bytes(alloc, "text")?,
        headers: headers_of(alloc, row)?,
    }))
}

/// The name and the value of a header, between which `: ` stands.
fn pair_in(alloc: Global, text: &[u8]) -> Result<(Bytes, Bytes), NoMemory> {
    for place in 0..text.len() {
        if let Some(value) = text[place..].strip_prefix(b": ") {
            let name = Bytes::from_slice(alloc, &text[..place])?;
            return Ok((name, Bytes::from_slice(alloc, value)?));
        }
    }
    Ok((Bytes::from_slice(alloc, text)?, Bytes::new(alloc)))
}

fn push_header(
    alloc: Global,
    row: BlockRow<'_>,
    place: usize,
    headers: &mut HeadPairs,
) -> Result<(), NoMemory> {
    let text = row.bytes_at(alloc, "header", place)?;
    headers.push(pair_in(alloc, text.as_slice())?)?;
    Ok(())
}

/// The headers of a row, each with a line of its own.
pub fn headers_of(alloc: Global, row: BlockRow<'_>) -> Result<HeadPairs, NoMemory> {
    let mut headers = HeadPairs::new(alloc);
    for place in 0..row.count("header") {
        push_header(alloc, row, place, &mut headers)?;
    }
    Ok(headers)
}

/// A message has no more headers than it may have.
fn is_short(message: &Message) -> bool
    ensures { IsTrue result → IsMessage message.now }
{
    match message {
        Message::Headers(parts) => {
            let _status = parts.status;
            parts.headers.len() <= MAX_HEADERS
        }
        Message::Ask(wanted) => {
            let _wanted = *wanted;
            true
        }
        Message::Chunk(_) | Message::End { .. } | Message::Pong => true,
    }
}

/// The packet of a message.
fn packet(alloc: Global, message: &Message, most: u32) -> Result<Bytes, EncodeError> {
    if is_short(message) {
        encode_reply(alloc, message, most)
    } else {
        Err(EncodeError::TooLarge)
    }
}
