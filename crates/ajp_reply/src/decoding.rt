//! Payloads of the container, read whole.

ghost use Rattle.std.specs.Prelude.{◌≡◌, ◌≢◌, ◌+◌, ◌≤◌, List, [], ℕ, length, map, take, drop, Ok, Err, IfOk, IfErr, IfSome, IfNone, vec_capacity};
ghost use Rattle.ajp_wire.specs.FirstPlace.{IsRefused};
ghost use Rattle.ajp_wire.specs.Reading.{GivesReading, TellsReading};
ghost use Rattle.ajp_reply.specs.declared.message.Message.{Message};
ghost use Rattle.ajp_reply.specs.Spelling.{Spells, IsSpelled, IsMessage, BeginsHead, TakesMemory};
ghost use Rattle.ajp_reply.specs.Reading.{message_at, head_at, chunk_at, end_at, ask_at, ended as ended_at, ReadsWithMemory};

use crate::message::{Message, ReplyParts};
use crate::names::reply_names;
use ajp_wire::{DecodeError, NotRead, RefusalKind, next_headers, next_int, next_text, refused};
use jk_io::Bytes;
use std::alloc::Global;
use std::mem;

/// The message that a payload spells.
pub fn decode_reply(alloc: Global, payload: &[u8]) -> Result<Message, DecodeError>
    ensures found { IfOk result (λ message. Spells message payload.now) }
    ensures none { IfErr result (λ error. error ≢ DecodeError.NoMemory → (message : Message) → Spells message payload.now → ⊥) }

    // What was read can be written again.
    ensures written { IfOk result IsMessage }

    // The place of a refusal is the first that can't be read, and its kind is that of the field there.
    ensures refused { IfErr result (λ error. IsRefused IsSpelled payload.now error) }
    ensures exact { TellsReading (length payload.now) result (message_at payload.now) }

    // Memory is wanted for a head and for a chunk alone.
    ensures wanted { result ≡ Err DecodeError.NoMemory → TakesMemory payload.now }
{
    match message(alloc, payload) {
        Ok(message) => Ok(message),
        Err(stop) => Err(stop.told(payload.len())),
    }
}

/// As `decode_reply`, but a chunk keeps the payload's own memory, so that no more is taken.
pub fn take_reply(alloc: Global, payload: &mut Vec<u8>) -> Result<Message, DecodeError>
    ensures found { IfOk result (λ message. Spells message payload.old.items) }
    ensures none { IfErr result (λ error. error ≢ DecodeError.NoMemory
        → (message : Message) → Spells message payload.old.items → ⊥) }
    ensures written { IfOk result IsMessage }
    ensures refused { IfErr result (λ error. IsRefused IsSpelled payload.old.items error) }
    ensures exact { TellsReading (length payload.old.items) result (message_at payload.old.items) }

    // A chunk leaves the payload with no bytes and no memory. Any other message, and an error, leave it as it was.
    ensures emptied { (bytes : List ℕ) → result ≡ Ok (Message.Chunk bytes) → (payload.new.items ≡ []) × (vec_capacity payload.new ≡ 0) }
    ensures kept { ((bytes : List ℕ) → result ≢ Ok (Message.Chunk bytes)) → payload.new ≡ payload.old }

    // Memory is wanted for a head alone, so a chunk is never refused for want of it.
    ensures wanted { result ≡ Err DecodeError.NoMemory → BeginsHead payload.old.items }
{
    match chunk_len(payload.as_slice()) {
        Some(len) => Ok(Message::Chunk(cut_out(alloc, payload, len))),
        None => decode_reply(alloc, payload.as_slice()),
    }
}

/// How many bytes of data come after the payload's first three, where it spells a chunk.
#[tactic(auto, unfolding(crate::specs::Reading::chunk_at))]
fn chunk_len(payload: &[u8]) -> Option<usize>
    ensures chunk { IfSome result (λ len. message_at payload.now ≡ Ok (Message.Chunk (take len (drop 3 payload.now)))) }
    ensures within { IfSome result (λ len. 3 + len ≤ length payload.now) }
    ensures none { IfNone result ((bytes : List ℕ) → Spells (Message.Chunk bytes) payload.now → ⊥) }
{
    let [3, high, low, rest @ ..] = payload else {
        return None;
    };
    let len = u16::from_be_bytes([*high, *low]) as usize;
    if rest.len() < len {
        return None;
    }
    match rest.split_at(len).1 {
        [] | [0] => Some(len),
        [_, ..] => None,
    }
}

/// The `len` bytes after a payload's first three, in the payload's memory.
fn cut_out(alloc: Global, payload: &mut Vec<u8>, len: usize) -> Bytes
    requires { 3 + len ≤ length payload.old.items }
    ensures value { result ≡ take len (drop 3 payload.old.items) }
    ensures emptied { (payload.new.items ≡ []) × (vec_capacity payload.new ≡ 0) }
{
    payload.copy_within(3..3 + len, 0);
    payload.truncate(len);
    Bytes::from_vec(mem::replace(payload, Vec::new(alloc)))
}

fn message(alloc: Global, payload: &[u8]) -> Result<Message, NotRead>
    ensures read { GivesReading (λ m. m) result (message_at payload.now) }
    ensures wanted { IfErr result (λ stop. stop ≡ NotRead.NoMemory → ReadsWithMemory payload.now) }
{
    match payload {
        [4, rest @ ..] => head(alloc, rest),
        [3, rest @ ..] => chunk(alloc, rest),
        [5, rest @ ..] => end(rest),
        [6, rest @ ..] => ask(rest),
        [9, rest @ ..] => ended(Message::Pong, rest),
        [_, ..] => Err(refused(RefusalKind::BadCode, payload)),
        [] => Err(refused(RefusalKind::Short, payload)),
    }
}

/// Send Headers, read from its second byte on.
#[tactic(auto, unfolding(crate::specs::Reading::head_at))]
fn head(alloc: Global, rest: &[u8]) -> Result<Message, NotRead>
    ensures { GivesReading (λ m. m) result (head_at rest.now) }
{
    let (status, rest) = next_int(rest)?;
    let (message, rest) = next_text(alloc, true, rest)?;
    let (headers, rest) = next_headers(alloc, reply_names(), true, rest)?;
    let parts = ReplyParts {
        status,
        message,
        headers,
    };
    ended(Message::Headers(parts), rest)
}

/// Send Body Chunk, read from its second byte on.
fn chunk(alloc: Global, rest: &[u8]) -> Result<Message, NotRead>
    ensures read { GivesReading (λ m. m) result (chunk_at rest.now) }
    ensures wanted { IfErr result (λ stop. stop ≡ NotRead.NoMemory
        → (bytes : List ℕ) × (chunk_at rest.now ≡ Ok (Message.Chunk bytes))) }
{
    let bytes = chunk_bytes(rest)?;
    Ok(Message::Chunk(Bytes::from_slice(alloc, bytes)?))
}

/// The data of a chunk, where they lie.
#[tactic(auto, unfolding(crate::specs::Reading::chunk_at))]
fn chunk_bytes(rest: &[u8]) -> Result<&[u8], NotRead>
    ensures read { GivesReading (λ bytes. Message.Chunk bytes.now) result (chunk_at rest.now) }
    ensures no_want { IfErr result (λ stop. stop ≢ NotRead.NoMemory) }
{
    let (size, rest) = next_int(rest)?;
    let size = size as usize;
    if rest.len() < size {
        return Err(refused(RefusalKind::Short, &[]));
    }
    let (bytes, behind) = rest.split_at(size);
    match behind {
        [] | [0] => Ok(bytes),
        [0, extra @ ..] => Err(refused(RefusalKind::Extra, extra)),
        [_, ..] => Err(refused(RefusalKind::BadMark, behind)),
    }
}

/// End Response, read from its second byte on.
fn end(rest: &[u8]) -> Result<Message, NotRead>
    ensures read { GivesReading (λ m. m) result (end_at rest.now) }
    ensures no_want { IfErr result (λ stop. stop ≢ NotRead.NoMemory) }
{
    match rest {
        [byte, rest @ ..] => ended(Message::End { reuse: *byte == 1 }, rest),
        [] => Err(refused(RefusalKind::Short, rest)),
    }
}

/// Get Body Chunk, read from its second byte on.
#[tactic(auto, unfolding(crate::specs::Reading::ask_at))]
fn ask(rest: &[u8]) -> Result<Message, NotRead>
    ensures read { GivesReading (λ m. m) result (ask_at rest.now) }
    ensures no_want { IfErr result (λ stop. stop ≢ NotRead.NoMemory) }
{
    let (most, rest) = next_int(rest)?;
    ended(Message::Ask(most), rest)
}

/// The message, where no byte follows it.
fn ended(message: Message, rest: &[u8]) -> Result<Message, NotRead>
    ensures read { GivesReading (λ m. m) result (ended_at message rest.now) }
    ensures no_want { IfErr result (λ stop. stop ≢ NotRead.NoMemory) }
{
    if rest.is_empty() {
        Ok(message)
    } else {
        Err(refused(RefusalKind::Extra, rest))
    }
}
