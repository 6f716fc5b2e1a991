//! Integers, strings and packets as they are written.

ghost use Rattle.std.specs.Prelude.{◌≡◌, ℕ, ◌+◌, ◌<◌, ◌↔◌, List, ◌++◌, length, not, OnOk, OnErr, IfOk};
ghost use Rattle.ajp_wire.specs.Spelling.{int, string, IsLongString};
ghost use Rattle.ajp_wire.specs.Packet.{head, packet, body_packet as body_packet_of, IsLongPayload, IsLongPiece};

use crate::errors::WireError;
use jk_io::{Bytes, NoMemory};
use std::alloc::Global;

/// The most bytes of a string: its length is below the one that says absent.
pub const MAX_STRING_BYTES: usize = 65_534;

/// A string has fewer bytes than this: as a length it says that the string is absent.
pub const STRING_LIMIT: usize = 65_535;

/// The most bytes of a payload, which has no more than its length can say.
pub const MAX_PAYLOAD_BYTES: usize = 65_535;

/// A payload has fewer bytes than this.
pub const PAYLOAD_LIMIT: usize = 65_536;

/// The most data of a body packet: the greatest packet has 65,536 bytes, and 6 of them stand before the data.
pub const MAX_PIECE_BYTES: usize = 65_530;

/// Bytes before a payload: the magic and the payload's length.
pub const HEAD_BYTES: usize = 4;

/// Adds an integer at the end.
pub fn put_int(out: &mut Bytes, n: u16) -> Result<(), NoMemory>
    ensures ok { OnOk result (out.new ≡ out.old ++ int n) }
    ensures err { OnErr result (out.new ≡ out.old) }
{
    out.extend(&[(n / 256) as u8, (n % 256) as u8])
}

/// Adds a string at the end. After a refusal nothing was added.
pub fn put_string(out: &mut Bytes, text: &[u8]) -> Result<(), WireError>
    ensures ok { OnOk result (out.new ≡ out.old ++ string text.now) }
    ensures too_long { (result ≡ Err WireError.TooLong) ↔ IsLongString text.now }
    ensures err { OnErr result (out.new ≡ out.old) }
{
    if text.len() > MAX_STRING_BYTES {
        return Err(WireError::TooLong);
    }
    let before = out.len();
    match put_text(out, text) {
        Ok(()) => Ok(()),
        Err(NoMemory) => {
            out.truncate(before);
            Err(WireError::NoMemory)
        }
    }
}

/// Adds a string at the end. After a refusal a front of it may stand there.
pub fn put_text(out: &mut Bytes, text: &[u8]) -> Result<(), NoMemory>
    requires { length text.now < STRING_LIMIT }
    ensures ok { OnOk result (out.new ≡ out.old ++ string text.now) }
    ensures err { OnErr result ((front : List ℕ) × (out.new ≡ out.old ++ front)) }
{
    put_int(out, text.len() as u16)?;
    out.extend(text)?;
    out.push(0)
}

/// Adds the four bytes in front of a payload of `size` bytes.
pub fn put_head(out: &mut Bytes, from_container: bool, size: u16) -> Result<(), NoMemory>
    ensures ok { OnOk result (out.new ≡ out.old ++ head from_container size) }
{
    let magic = if from_container {
        [0x41, 0x42]
    } else {
        [0x12, 0x34]
    };
    out.extend(&magic)?;
    put_int(out, size)
}

/// The packet of a payload.
pub fn seal(alloc: Global, payload: Bytes, to_container: bool) -> Result<Bytes, WireError>
    ensures ok { IfOk result (λ bytes. bytes ≡ packet (not to_container) payload) }
    ensures too_long { (result ≡ Err WireError.TooLong) ↔ IsLongPayload payload }
{
    if payload.len() > MAX_PAYLOAD_BYTES {
        return Err(WireError::TooLong);
    }
    let mut out = Bytes::with_capacity(alloc, HEAD_BYTES + payload.len())?;
    put_head(&mut out, !to_container, payload.len() as u16)?;
    out.extend(payload.as_slice())?;
    Ok(out)
}

/// The packet to the container with a piece of a request's body. No bytes mean that nothing is left.
pub fn body_packet(alloc: Global, piece: &[u8]) -> Result<Bytes, WireError>
    ensures ok { IfOk result (λ bytes. bytes ≡ body_packet_of piece.now) }
    ensures too_long { (result ≡ Err WireError.TooLong) ↔ IsLongPiece piece.now }
{
    if piece.len() > MAX_PIECE_BYTES {
        return Err(WireError::TooLong);
    }
    if piece.is_empty() {
        return Ok(Bytes::from_slice(alloc, b"\x12\x34\x00\x00")?);
    }
    let mut out = Bytes::with_capacity(alloc, HEAD_BYTES + 2 + piece.len())?;
    put_head(&mut out, false, piece.len() as u16 + 2)?;
    put_int(&mut out, piece.len() as u16)?;
    out.extend(piece)?;
    Ok(out)
}
