//! Packets of the container, written.

ghost use Rattle.std.specs.Prelude.{◌≡◌, ◌+◌, ◌≤◌, ◌++◌, List, ℕ, length, IfOk, OnOk, IfSome, IfNone, true};
ghost use Rattle.ajp_wire.specs.Packet.{packet};
ghost use Rattle.ajp_reply.specs.Spelling.{Spells, payload_of, as_read, FieldsFit, Fits, IsMessage};

use crate::message::{Message, ReplyParts};
use crate::names::reply_names;
use ajp_wire::{
    EncodeError, HEAD_BYTES, MAX_PAYLOAD_BYTES, MAX_STRING_BYTES, headers_len, put_head,
    put_headers, put_int, put_text,
};
use jk_io::{Bytes, NoMemory};
use std::alloc::Global;

/// The most bytes that are counted for a payload, even for one that is too long.
const PAYLOAD_ROOM: usize = 20_000_000;

/// The packet of a message, which has at most `most` bytes.
pub fn encode_reply(alloc: Global, message: &Message, most: u32) -> Result<Bytes, EncodeError>
    requires { IsMessage message.now }
    ensures ok { IfOk result (λ bytes. bytes ≡ packet true (payload_of message.now)) }
    ensures spelled { OnOk result (Spells (as_read message.now) (payload_of message.now)) }
    ensures fits { OnOk result (Fits most message.now) }
    ensures too_large { result ≡ Err EncodeError.TooLarge → Fits most message.now → ⊥ }
{
    let Some(size) = payload_len(message) else {
        return Err(EncodeError::TooLarge);
    };
    if size > MAX_PAYLOAD_BYTES {
        return Err(EncodeError::TooLarge);
    }
    if HEAD_BYTES + size > most as usize {
        return Err(EncodeError::TooLarge);
    }
    let mut out = Bytes::with_capacity(alloc, HEAD_BYTES + size)?;
    put_head(&mut out, true, size as u16)?;
    put_message(&mut out, message)?;
    Ok(out)
}

/// How many bytes the payload has, unless a field is longer than its length can say.
fn payload_len(message: &Message) -> Option<usize>
    requires { IsMessage message.now }
    ensures value { IfSome result (λ size. size ≡ length (payload_of message.now)) }
    ensures bound { IfSome result (λ size. size ≤ PAYLOAD_ROOM) }
    ensures fits { IfSome result (λ _. FieldsFit message.now) }
    ensures none { IfNone result (FieldsFit message.now → ⊥) }
{
    match message {
        Message::Headers(parts) => head_len(parts),
        Message::Chunk(bytes) => {
            if bytes.len() > u16::MAX as usize {
                return None;
            }
            Some(bytes.len() + 4)
        }
        Message::End { .. } => Some(2),
        Message::Ask(_) => Some(3),
        Message::Pong => Some(1),
    }
}

fn head_len(parts: &ReplyParts) -> Option<usize>
    requires { IsMessage (Message.Headers parts.now) }
    ensures value { IfSome result (λ size. size ≡ length (payload_of (Message.Headers parts.now))) }
    ensures bound { IfSome result (λ size. size ≤ PAYLOAD_ROOM) }
    ensures fits { IfSome result (λ _. FieldsFit (Message.Headers parts.now)) }
    ensures none { IfNone result (FieldsFit (Message.Headers parts.now) → ⊥) }
{
    if parts.message.len() > MAX_STRING_BYTES {
        return None;
    }
    match headers_len(parts.headers.as_slice(), reply_names()) {
        Some(headers) => Some(3 + parts.message.len() + 3 + 2 + headers),
        None => None,
    }
}

/// Adds the payload at the end.
fn put_message(out: &mut Bytes, message: &Message) -> Result<(), NoMemory>
    requires small { IsMessage message.now }
    requires fits { FieldsFit message.now }
    ensures ok { OnOk result (out.new ≡ out.old ++ payload_of message.now) }
{
    match message {
        Message::Headers(parts) => put_parts(out, parts),
        Message::Chunk(bytes) => {
            out.push(3)?;
            put_int(out, bytes.len() as u16)?;
            out.extend(bytes.as_slice())?;
            out.push(0)
        }
        Message::End { reuse } => out.extend(&[5, u8::from(*reuse)]),
        Message::Ask(most) => {
            out.push(6)?;
            put_int(out, *most)
        }
        Message::Pong => out.push(9),
    }
}

fn put_parts(out: &mut Bytes, parts: &ReplyParts) -> Result<(), NoMemory>
    requires small { IsMessage (Message.Headers parts.now) }
    requires fits { FieldsFit (Message.Headers parts.now) }
    ensures ok { OnOk result (out.new ≡ out.old ++ payload_of (Message.Headers parts.now)) }
{
    out.push(4)?;
    put_int(out, parts.status)?;
    put_text(out, parts.message.as_slice())?;
    put_int(out, parts.headers.len() as u16)?;
    put_headers(out, parts.headers.as_slice(), reply_names())
}
