//! The field that a payload goes on with, and the bytes after it. Nothing is copied but the text that `next_text` hands
//! out, so no other of these wants memory.
ghost use Rattle.std.specs.Prelude.{◌≡◌, ◌≢◌, ◌+◌, ◌*◌, ◌<◌, List, ℕ, length, Option, option_map, IfErr};
ghost use Rattle.std.specs.Option.{option_copied};
ghost use Rattle.ajp_wire.specs.Reading.{GivesReading, byte_at, int_at, marked_at, string_at, text_at};

use crate::refusal::{NotRead, RefusalKind, refused};
use jk_io::Bytes;
use std::alloc::Global;

/// A byte.
pub fn next_byte(rest: &[u8]) -> Result<(u8, &[u8]), NotRead>
    ensures read { GivesReading (λ x. (x.0, x.1.now)) result (byte_at rest.now) }
    ensures no_want { IfErr result (λ stop. stop ≢ NotRead.NoMemory) }
{
    match rest {
        [byte, rest @ ..] => Ok((*byte, rest)),
        [] => Err(refused(RefusalKind::Short, rest)),
    }
}

/// An integer: two bytes, high byte first.
pub fn next_int(rest: &[u8]) -> Result<(u16, &[u8]), NotRead>
    ensures read { GivesReading (λ x. (x.0, x.1.now)) result (int_at rest.now) }
    ensures no_want { IfErr result (λ stop. stop ≢ NotRead.NoMemory) }
{
    match rest {
        [high, low, rest @ ..] => Ok((u16::from_be_bytes([*high, *low]), rest)),
        [_] | [] => Err(refused(RefusalKind::Short, &[])),
    }
}

/// The bytes of a string whose length was read, without the zero byte that follows them.
#[tactic(auto, unfolding(crate::specs::Reading::marked_at))]
pub(crate) fn next_marked(len: u16, rest: &[u8]) -> Result<(&[u8], &[u8]), NotRead>
    ensures read { GivesReading (λ x. (x.0.now, x.1.now)) result (marked_at len rest.now) }
    ensures no_want { IfErr result (λ stop. stop ≢ NotRead.NoMemory) }
{
    let len = len as usize;
    if rest.len() < len {
        return Err(refused(RefusalKind::Short, &[]));
    }
    let (text, rest) = rest.split_at(len);
    match rest {
        [] => Err(refused(RefusalKind::Short, rest)),
        [0, rest @ ..] => Ok((text, rest)),
        [_, ..] => Err(refused(RefusalKind::BadMark, rest)),
    }
}

/// A string, or None where the length says that it is absent.
#[tactic(auto, unfolding(crate::specs::Reading::string_at))]
pub fn next_string(rest: &[u8]) -> Result<(Option<&[u8]>, &[u8]), NotRead>
    ensures read { GivesReading (λ x. (option_copied x.0, x.1.now)) result (string_at rest.now) }
    ensures no_want { IfErr result (λ stop. stop ≢ NotRead.NoMemory) }
{
    let (len, rest) = next_int(rest)?;
    if len == 0xFFFF {
        return Ok((None, rest));
    }
    let (text, rest) = next_marked(len, rest)?;
    Ok((Some(text), rest))
}

/// A string in memory of its own, of just its length. An absent one, where it may be absent, is empty.
#[tactic(auto, unfolding(crate::specs::Reading::text_at))]
pub fn next_text(alloc: Global, may_be_absent: bool, rest: &[u8]) -> Result<(Bytes, &[u8]), NotRead>
    ensures { GivesReading (λ x. (x.0, x.1.now)) result (text_at may_be_absent rest.now) }
{
    match next_string(rest)? {
        (Some(text), after) => Ok((Bytes::from_slice(alloc, text)?, after)),
        (None, after) if may_be_absent => Ok((Bytes::new(alloc), after)),
        (None, _) => Err(refused(RefusalKind::Absent, rest)),
    }
}
