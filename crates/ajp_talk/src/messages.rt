//! The next message from a link.

ghost use Rattle.std.specs.Prelude.{◌≡◌, ◌<◌, IfOk, IfErr, length};
ghost use Rattle.ajp_wire.specs.Moments.{link_at};
ghost use Rattle.ajp_wire.specs.Packet.{count_of, read_into};
ghost use Rattle.ajp_talk.specs.Moments.{KeepsLink};
ghost use Rattle.ajp_talk.specs.Hearing.{undecoded as undecoded_as, unheard as unheard_as};
ghost use Rattle.ajp_talk.specs.Turns.{IsHeard, IsUnheard};
ghost use Rattle.ajp_wire.specs.declared.writing.TheConstants.{PAYLOAD_LIMIT};

use crate::room::Room;
use crate::turn::Unheard;
use ajp_reply::{Message, take_reply};
use ajp_wire::{DecodeError, PacketError, read_packet_into};
use jk_io::Link;

/// The read of one packet takes fewer bytes than this: its count has 32 bits.
pub const READ_LIMIT: u64 = 4_294_967_400;

/// Reads one message, and adds the bytes that came to `count`. Where the count reaches `most` nothing else is looked at.
pub(crate) fn receive<L: Link>(
    room: &mut Room,
    line: &mut L,
    packet: u32,
    most: u64,
    count: &mut u64,
) -> Result<Message, Unheard>
    ensures heard { IfOk result (IsHeard packet most (link_at L.Meanings line.old) (link_at L.Meanings line.new) count.old count.new) }
    ensures unheard { IfErr result (IsUnheard packet most (link_at L.Meanings line.old) (link_at L.Meanings line.new) count.old count.new) }
    ensures keeps { KeepsLink L.Meanings line.old line.new }
{
    let answer = read_packet_into(line, true, packet, &mut room.payload);
    *count = count.saturating_add(bytes_read(&answer, room.payload.as_slice()));
    if *count >= most {
        return Err(Unheard::TooLong);
    }
    match answer {
        Ok(()) => match take_reply(room.alloc, &mut room.payload) {
            Ok(message) => Ok(message),
            Err(error) => Err(undecoded(error)),
        },
        Err(error) => Err(unheard(error)),
    }
}

/// How many bytes came in the read of a packet.
fn bytes_read(answer: &Result<(), PacketError>, payload: &[u8]) -> u64
    requires { IfOk (read_into answer.now payload.now) (λ payload. length payload < PAYLOAD_LIMIT) }
    ensures value { result ≡ count_of (read_into answer.now payload.now) }
    ensures small { result < READ_LIMIT }
{
    match answer {
        Ok(()) => payload.len() as u64 + 4,
        Err(
            PacketError::End { read }
            | PacketError::Short { read }
            | PacketError::BadMagic { read }
            | PacketError::TooLong { read }
            | PacketError::Fault { read }
            | PacketError::NoMemory { read },
        ) => u64::from(*read),
    }
}

fn unheard(error: PacketError) -> Unheard
    ensures { result ≡ unheard_as error }
{
    match error {
        PacketError::End { .. } | PacketError::Short { .. } => Unheard::Ended,
        PacketError::BadMagic { .. } | PacketError::TooLong { .. } => Unheard::Wrong,
        PacketError::Fault { .. } => Unheard::Line,
        PacketError::NoMemory { .. } => Unheard::NoMemory,
    }
}

fn undecoded(error: DecodeError) -> Unheard
    ensures { result ≡ undecoded_as error }
{
    match error {
        DecodeError::NoMemory => Unheard::NoMemory,
        DecodeError::Short { .. }
        | DecodeError::BadCode { .. }
        | DecodeError::BadMark { .. }
        | DecodeError::BadBoolean { .. }
        | DecodeError::Extra { .. }
        | DecodeError::TooMany { .. }
        | DecodeError::Absent { .. } => Unheard::Wrong,
    }
}
