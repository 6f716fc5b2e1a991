//! The opening of a talk: the Forward Request, and the first piece of the body.

ghost use Rattle.std.specs.Prelude.{◌≡◌, ◌≤◌, length, IfOk};
ghost use Rattle.ajp_wire.specs.Moments.{link_at};
ghost use Rattle.ajp_talk.specs.Moments.{KeepsLink};
ghost use Rattle.ajp_talk.specs.Owed.{first_packet as first_packet_of, request_of};
ghost use Rattle.ajp_talk.specs.Turns.{IsSent};
ghost use Rattle.ajp_wire.specs.declared.writing.TheConstants.{MAX_PIECE_BYTES};

use crate::body_piece::piece_packet;
use crate::plan::TalkPlan;
use crate::sending::send;
use jk_io::{Bytes, IoError, NoMemory, Sink};
use std::alloc::Global;

/// Sends the Forward Request and the first piece in one write. Without a first piece the request isn't copied.
pub(crate) fn send_request<L: Sink>(
    alloc: Global,
    plan: &TalkPlan,
    line: &mut L,
    sent: &mut u64,
) -> Result<(), IoError>
    requires { length plan.now.first ≤ MAX_PIECE_BYTES }
    ensures sent { IsSent (link_at L.Meanings line.old) (link_at L.Meanings line.new) sent.old sent.new (request_of plan.now) result }
    ensures keeps { KeepsLink L.Meanings line.old line.new }
{
    if plan.first.is_empty() {
        return send(line, plan.forward.as_slice(), sent);
    }
    match request(alloc, plan) {
        Ok(bytes) => send(line, bytes.as_slice(), sent),
        Err(NoMemory) => Err(IoError::NoMemory),
    }
}

/// The Forward Request, and the packet of the first piece where there is one.
fn request(alloc: Global, plan: &TalkPlan) -> Result<Bytes, NoMemory>
    requires { length plan.now.first ≤ MAX_PIECE_BYTES }
    ensures { IfOk result (λ bytes. bytes ≡ request_of plan.now) }
{
    let mut bytes = plan.forward.copy()?;
    bytes.extend(first_packet(alloc, plan.first.as_slice())?.as_slice())?;
    Ok(bytes)
}

fn first_packet(alloc: Global, first: &[u8]) -> Result<Bytes, NoMemory>
    requires { length first.now ≤ MAX_PIECE_BYTES }
    ensures { IfOk result (λ bytes. bytes ≡ first_packet_of first.now) }
{
    match first {
        [] => Ok(Bytes::new(alloc)),
        [_, ..] => piece_packet(alloc, first),
    }
}
