//! Messages as they go to the connector.
ghost use Rattle.std.specs.Prelude.{◌≡◌, ◌≤◌, true, IfOk, All};
ghost use Rattle.ajp_wire.specs.Packet.{packet};
ghost use Rattle.ajp_reply.specs.Spelling.{payload_of};
ghost use Rattle.ajp_container.specs.Answer.{IsSendable, bytes_of};
ghost use Rattle.ajp_wire.specs.Moments.{link_at};
ghost use Rattle.ajp_container.specs.Steps.{Sends};

use crate::ends::Stopped;
use ajp_reply::{Message, encode_reply};
use ajp_wire::EncodeError;
use jk_io::{Bytes, IoError, Link, NoMemory, write_all};
use std::alloc::Global;

/// Sends messages, one packet after the other, in as few writes as the link allows.
pub fn send<L: Link>(
    alloc: Global,
    link: &mut L,
    messages: &[Message],
    most: u32,
) -> Result<(), Stopped>
    requires { All (IsSendable most) messages.now }
    ensures sent { Sends (bytes_of messages.now) (link_at L.Meanings link.old) (link_at L.Meanings link.new) result }
    ensures no_fewer { L.faults link.old ≤ L.faults link.new }
    ensures same { L.beside link.new ≡ L.beside link.old }
{
    let bytes = packets(alloc, messages, most)?;
    match write_all(link, bytes.as_slice()) {
        Ok(()) => Ok(()),
        Err(IoError::Failed) => Err(Stopped::LinkFault),
        Err(IoError::NoMemory) => Err(Stopped::NoMemory),
    }
}

/// The bytes of messages, one packet after the other.
fn packets(alloc: Global, messages: &[Message], most: u32) -> Result<Bytes, NoMemory>
    requires { All (IsSendable most) messages.now }
    ensures { IfOk result (λ bytes. bytes ≡ bytes_of messages.now) }
{
    let mut bytes = Bytes::new(alloc);
    for message in messages {
        let packet = packet_of(alloc, message, most)?;
        bytes.extend(packet.as_slice())?;
    }
    Ok(bytes)
}

fn packet_of(alloc: Global, message: &Message, most: u32) -> Result<Bytes, NoMemory>
    requires { IsSendable most message.now }
    ensures { IfOk result (λ bytes. bytes ≡ packet true (payload_of message.now)) }
{
    match encode_reply(alloc, message, most) {
        Ok(bytes) => Ok(bytes),
        Err(EncodeError::TooLarge) => unreachable!(),
        Err(EncodeError::NoMemory) => Err(NoMemory),
    }
}
