//! One packet at a time from a link.

ghost use Rattle.std.specs.Prelude.{◌≡◌, ◌≢◌, ◌↔◌, ℕ, ◌+◌, ◌≤◌, ◌<◌, List, [], length, IsOk, IsErr, IfOk, IfErr, IsTrue};
ghost use Rattle.ajp_wire.specs.Moments.{link_at};
ghost use Rattle.jk_io.specs.Told.{IsEmpty, Rose};
ghost use Rattle.ajp_wire.specs.Packet.{HasCome, ReadsPacket, read_into, says_end, says_fault, says_calm};
ghost use Rattle.ajp_wire.specs.Head.{begins_packet as begins, HeadCameAs, PayloadCameAs};

use crate::errors::PacketError;
use crate::writing::HEAD_BYTES;
use jk_io::{Bytes, Filled, Link, Stop, fill};
use std::alloc::Global;

/// Reads one packet, and no byte after it, and gives its payload. `most` counts the head's 4 bytes too.
pub fn read_packet<L: Link>(
    alloc: Global,
    line: &mut L,
    from_container: bool,
    most: u32,
) -> Result<Bytes, PacketError>
    // Whatever the answer is: which bytes came, what they are, and that it counts them.
    ensures packet { ReadsPacket from_container most result (link_at L.Meanings line.old) (link_at L.Meanings line.new) }

    ensures end { IfErr result (λ error. IsTrue (says_end error) → IsEmpty (L.incoming line.new)) }
    ensures fault { IfErr result (λ error. IsTrue (says_fault error) → Rose (L.faults line.old) (L.faults line.new)) }
    ensures no_fewer { L.faults line.old ≤ L.faults line.new }
    ensures steady { IsOk result → L.faults line.new ≡ L.faults line.old }
    ensures calm { IfErr result (λ error. IsTrue (says_calm error) → L.faults line.new ≡ L.faults line.old) }
    ensures same { (L.sent line.new ≡ L.sent line.old) × (L.beside line.new ≡ L.beside line.old) }
{
    let mut payload = Vec::new(alloc);
    read_packet_into(line, from_container, most, &mut payload)?;
    Ok(Bytes::from_vec(payload))
}

/// Reads one packet as `read_packet` does, and leaves its payload alone in a buffer, whose memory is used again.
pub fn read_packet_into<L: Link>(
    line: &mut L,
    from_container: bool,
    most: u32,
    payload: &mut Vec<u8>,
) -> Result<(), PacketError>
    ensures packet { ReadsPacket from_container most (read_into result payload.new.items) (link_at L.Meanings line.old) (link_at L.Meanings line.new) }

    // After an error no byte is left in the buffer, neither of this packet nor of an earlier one.
    ensures none_left { IsErr result → payload.new.items ≡ [] }

    ensures end { IfErr result (λ error. IsTrue (says_end error) → IsEmpty (L.incoming line.new)) }
    ensures fault { IfErr result (λ error. IsTrue (says_fault error) → Rose (L.faults line.old) (L.faults line.new)) }
    ensures no_fewer { L.faults line.old ≤ L.faults line.new }
    ensures steady { IsOk result → L.faults line.new ≡ L.faults line.old }
    ensures calm { IfErr result (λ error. IsTrue (says_calm error) → L.faults line.new ≡ L.faults line.old) }
    ensures same { (L.sent line.new ≡ L.sent line.old) × (L.beside line.new ≡ L.beside line.old) }
{
    let answer = match read_head(line, from_container, most) {
        Ok(size) => read_payload(line, size, payload),
        Err(error) => Err(error),
    };
    if answer.is_err() {
        payload.clear();
    }
    answer
}

/// Reads the head of a packet, and gives the length of its payload.
fn read_head<L: Link>(line: &mut L, from_container: bool, most: u32) -> Result<u16, PacketError>
    ensures head { (bytes : List ℕ) × HasCome (link_at L.Meanings line.old) (link_at L.Meanings line.new) bytes × HeadCameAs from_container most result bytes }
    ensures end { IfErr result (λ error. IsTrue (says_end error) → IsEmpty (L.incoming line.new)) }
    ensures fault { IfErr result (λ error. IsTrue (says_fault error) → Rose (L.faults line.old) (L.faults line.new)) }
    ensures no_fewer { L.faults line.old ≤ L.faults line.new }
    ensures steady { IsOk result → L.faults line.new ≡ L.faults line.old }
    ensures calm { IfErr result (λ error. IsTrue (says_calm error) → L.faults line.new ≡ L.faults line.old) }
    ensures same { (L.sent line.new ≡ L.sent line.old) × (L.beside line.new ≡ L.beside line.old) }
{
    let mut head = [0u8; HEAD_BYTES];
    let Filled { count, stop } = fill(line, &mut head);
    judge_head(&head[..count], stop, from_container, most)
}

/// Judges the front of a head that came before a stop.
fn judge_head(came: &[u8], stop: Stop, from_container: bool, most: u32) -> Result<u16, PacketError>
    requires short { length came.now ≤ HEAD_BYTES }
    requires full { (stop ≡ Stop.Full) ↔ (length came.now ≡ HEAD_BYTES) }
    ensures head { HeadCameAs from_container most result came.now }
    ensures end { IfErr result (λ error. IsTrue (says_end error) → stop ≡ Stop.End) }
    ensures fault { IfErr result (λ error. IsTrue (says_fault error) → stop ≡ Stop.Fault) }
    ensures whole { IsOk result → stop ≡ Stop.Full }
    ensures calm { IfErr result (λ error. IsTrue (says_calm error) → stop ≢ Stop.Fault) }
{
    let read = came.len() as u32;
    if !begins_packet(came, from_container) {
        return Err(PacketError::BadMagic { read });
    }
    match stop {
        Stop::Full => size_within(came, from_container, most),
        Stop::End => {
            if read == 0 {
                Err(PacketError::End { read })
            } else {
                Err(PacketError::Short { read })
            }
        }
        Stop::Fault => Err(PacketError::Fault { read }),
        Stop::NoMemory => Err(PacketError::NoMemory { read }),
    }
}

/// Whether the bytes, as far as they go, begin a packet.
fn begins_packet(came: &[u8], from_container: bool) -> bool
    ensures { result ≡ begins from_container came.now }
{
    let (first, second) = if from_container {
        (0x41, 0x42)
    } else {
        (0x12, 0x34)
    };
    match came {
        [] => true,
        [a] => *a == first,
        [a, b, ..] => *a == first && *b == second,
    }
}

/// The length in a whole head, where the packet is within the limit. The head begins as a packet does.
fn size_within(head: &[u8], from_container: bool, most: u32) -> Result<u16, PacketError>
    requires whole { length head.now ≡ HEAD_BYTES }
    requires begun { IsTrue (begins from_container head.now) }
    ensures head { HeadCameAs from_container most result head.now }
    ensures no_end { IfErr result (λ error. IsTrue (says_end error) → ⊥) }
    ensures no_fault { IfErr result (λ error. IsTrue (says_fault error) → ⊥) }
{
    let size = u16::from(head[2]) * 256 + u16::from(head[3]);
    if u32::from(size) + 4 > most {
        return Err(PacketError::TooLong { read: 4 });
    }
    Ok(size)
}

/// Reads the payload after a head into a buffer.
fn read_payload<L: Link>(line: &mut L, size: u16, payload: &mut Vec<u8>) -> Result<(), PacketError>
    ensures payload { (bytes : List ℕ) × HasCome (link_at L.Meanings line.old) (link_at L.Meanings line.new) bytes
        × PayloadCameAs size (read_into result payload.new.items) bytes }
    ensures end { IfErr result (λ error. IsTrue (says_end error) → IsEmpty (L.incoming line.new)) }
    ensures fault { IfErr result (λ error. IsTrue (says_fault error) → Rose (L.faults line.old) (L.faults line.new)) }
    ensures no_fewer { L.faults line.old ≤ L.faults line.new }
    ensures steady { IsOk result → L.faults line.new ≡ L.faults line.old }
    ensures calm { IfErr result (λ error. IsTrue (says_calm error) → L.faults line.new ≡ L.faults line.old) }
    ensures same { (L.sent line.new ≡ L.sent line.old) × (L.beside line.new ≡ L.beside line.old) }
{
    if size == 0 {
        payload.clear();
        return Ok(());
    }
    if payload.resize(size as usize, 0).is_err() {
        return Err(PacketError::NoMemory { read: 4 });
    }
    let Filled { count, stop } = fill(line, payload.as_mut_slice());
    let read = 4 + count as u32;
    match stop {
        Stop::Full => Ok(()),
        Stop::End => Err(PacketError::Short { read }),
        Stop::Fault => Err(PacketError::Fault { read }),
        Stop::NoMemory => Err(PacketError::NoMemory { read }),
    }
}
