//! Pieces of the request's body, which answer Get Body Chunk.

ghost use Rattle.std.specs.Prelude.{◌≡◌, ◌<◌, ◌≤◌, None, length, IfOk};
ghost use Rattle.http_front.specs.State.{failed_of};
ghost use Rattle.ajp_wire.specs.Packet.{body_packet as body_packet_of};
ghost use Rattle.ajp_talk.specs.Moments.{KeepsLink};
ghost use Rattle.ajp_talk.specs.Owed.{want};
ghost use Rattle.ajp_talk.specs.Turns.{IsAskTurn, IsCalmTurn, IsSent, turn_of_sent};
ghost use Rattle.ajp_wire.specs.Moments.{link_at};
ghost use Rattle.ajp_talk.specs.Uploads.{IsSameUpload, talk_over};
ghost use Rattle.ajp_wire.specs.declared.writing.TheConstants.{MAX_PIECE_BYTES};

use crate::awaiting::await_on;
use crate::ending::Cause;
use crate::sending::send;
use crate::turn::{Turn, fault_turn};
use crate::upload::Upload;
use ajp_wire::body_packet;
use jk_io::{Awaited, Bytes, IoError, Link, NoMemory};
use std::alloc::Global;

/// The packet of a piece that is within the limit.
pub(crate) fn piece_packet(alloc: Global, piece: &[u8]) -> Result<Bytes, NoMemory>
    requires { length piece.now ≤ MAX_PIECE_BYTES }
    ensures { IfOk result (λ bytes. bytes ≡ body_packet_of piece.now) }
{
    match body_packet(alloc, piece) {
        Ok(bytes) => Ok(bytes),
        Err(_) => Err(NoMemory),
    }
}

/// How many bytes an ask wants, where a piece has at most `most`.
pub(crate) fn wanted(most: u32, n: u16) -> usize
    ensures { result ≡ want most n }
{
    if n == 0 {
        most as usize
    } else {
        u32::from(n).min(most) as usize
    }
}

/// Answers an ask of `n` bytes by the next data of the body.
pub(crate) fn answer_ask<L: Link, C: Link>(
    alloc: Global,
    n: usize,
    upload: &mut Upload,
    line: &mut L,
    client: &mut C,
    sent: &mut u64,
) -> Turn
    requires some { 0 < n }
    requires narrow { n ≤ MAX_PIECE_BYTES }
    requires going { failed_of upload.old.body.now ≡ None }
    ensures turn { let at = talk_over L.Meanings C.Meanings in
        IsAskTurn n (at line.old client.old upload.old) (at line.new client.new upload.new) sent.old sent.new result }
    ensures written { C.sent client.new ≡ C.sent client.old }
    ensures keeps { KeepsLink L.Meanings line.old line.new × KeepsLink C.Meanings client.old client.new }
    ensures calm { IsCalmTurn result → C.faults client.new ≡ C.faults client.old }
    ensures same { IsSameUpload upload.old upload.new }

    // Before it is read, the client is told that more of a body is waited for.
    ensures awaits { (after : C) × C.heard client.old Awaited.Body after }
{
    await_on(client, Awaited::Body);
    match upload.body.take(alloc, upload.inbox, client, n) {
        Ok(piece) => sent_turn(send_piece(alloc, piece.as_slice(), line, sent)),
        Err(fault) => fault_turn(fault),
    }
}

/// Sends the packet of a piece, and adds what was taken of it to `sent`.
fn send_piece<L: Link>(
    alloc: Global,
    piece: &[u8],
    line: &mut L,
    sent: &mut u64,
) -> Result<(), IoError>
    requires { length piece.now ≤ MAX_PIECE_BYTES }
    ensures sent { IsSent (link_at L.Meanings line.old) (link_at L.Meanings line.new) sent.old sent.new (body_packet_of piece.now) result }
    ensures keeps { KeepsLink L.Meanings line.old line.new }
{
    match piece_packet(alloc, piece) {
        Ok(packet) => send(line, packet.as_slice(), sent),
        Err(NoMemory) => Err(IoError::NoMemory),
    }
}

/// What a piece that was sent, or was not, makes of the talk.
fn sent_turn(answer: Result<(), IoError>) -> Turn
    ensures { result ≡ turn_of_sent answer }
{
    match answer {
        Ok(()) => Turn::On,
        Err(IoError::Failed) => Turn::Failed(Cause::Line),
        Err(IoError::NoMemory) => Turn::NoMemory,
    }
}
