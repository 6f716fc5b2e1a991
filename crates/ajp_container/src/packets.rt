//! Packets as they come from the connector.
ghost use Rattle.std.specs.Prelude.{◌≡◌, ◌≤◌, ℕ, List, IfSome, IfNone};
ghost use Rattle.ajp_container.specs.Turns.{SpellsPiece};
ghost use Rattle.ajp_wire.specs.Moments.{link_at};
ghost use Rattle.ajp_container.specs.Ends.{TurnPlace};
ghost use Rattle.ajp_container.specs.Steps.{TakesPacket, TakesPiece, stop_missed};

use crate::ends::{BadPacket, Stopped};
use ajp_wire::{PacketError, read_packet};
use jk_io::{Bytes, Link};
use std::alloc::Global;

/// Takes a packet of at most `most` bytes, and gives its payload.
pub fn take_packet<L: Link>(alloc: Global, link: &mut L, most: u32) -> Result<Bytes, Stopped>
    ensures took { (place : TurnPlace) → TakesPacket most place (link_at L.Meanings link.old) (link_at L.Meanings link.new) result }
    ensures no_fewer { L.faults link.old ≤ L.faults link.new }
    ensures same { L.beside link.new ≡ L.beside link.old }
{
    match read_packet(alloc, link, false, most) {
        Ok(payload) => Ok(payload),
        Err(error) => Err(stopped_as(error)),
    }
}

/// Why no packet was taken.
fn stopped_as(error: PacketError) -> Stopped
    ensures { result ≡ stop_missed error }
{
    match error {
        PacketError::End { .. } => Stopped::Closed,
        PacketError::Short { .. } => Stopped::Truncated,
        PacketError::BadMagic { .. } => Stopped::Bad(BadPacket::Magic),
        PacketError::TooLong { .. } => Stopped::Bad(BadPacket::TooLong),
        PacketError::Fault { .. } => Stopped::LinkFault,
        PacketError::NoMemory { .. } => Stopped::NoMemory,
    }
}

/// The data of a body packet's payload, where it is one.
fn piece_in(payload: &[u8]) -> Option<&[u8]>
    ensures some { IfSome result (λ piece. SpellsPiece piece.now payload.now) }
    ensures none { IfNone result ((piece : List ℕ) → SpellsPiece piece payload.now → ⊥) }
{
    match payload {
        [] => Some(payload),
        [_] => None,
        [high, low, piece @ ..] => {
            if u16::from_be_bytes([*high, *low]) as usize == piece.len() {
                Some(piece)
            } else {
                None
            }
        }
    }
}

/// Takes a body packet, adds its data at the end of `body`, and tells how many there are.
pub fn take_piece<L: Link>(
    alloc: Global,
    link: &mut L,
    most: u32,
    body: &mut Bytes,
) -> Result<usize, Stopped>
    ensures took { TakesPiece most body.old (link_at L.Meanings link.old) (link_at L.Meanings link.new) body.new result }
    ensures no_fewer { L.faults link.old ≤ L.faults link.new }
    ensures same { L.beside link.new ≡ L.beside link.old }
{
    let payload = take_packet(alloc, link, most)?;
    let Some(piece) = piece_in(payload.as_slice()) else {
        return Err(Stopped::Bad(BadPacket::Piece));
    };
    body.extend(piece)?;
    Ok(piece.len())
}
