//! A talk with a connector, turn by turn.
ghost use Rattle.std.specs.Prelude.{◌≡◌, ◌≤◌, [], ◌∷◌, Some, IfOk};
ghost use Rattle.jk_io.specs.Moments.{Moment};
ghost use Rattle.jk_io.specs.Told.{Rose};
ghost use Rattle.ajp_reply.specs.declared.message.Message.TheVariants.{Pong};
ghost use Rattle.ajp_container.specs.Answer.{bytes_of};
ghost use Rattle.ajp_wire.specs.Moments.{link_at};
ghost use Rattle.ajp_container.specs.Ends.{IsTalk};
ghost use Rattle.ajp_container.specs.Steps.{Sends, ServesForward, ReadsForward, IsBegun, TakesTurn, TookPacket, requests_of, stop_of, turn_after};

use crate::answering::app_answer;
use crate::app_config::AppConfig;
use crate::application::is_drop;
use crate::body::take_body;
use crate::ends::{BadPacket, ContainerEnd, Stopped, end_of};
use crate::packets::take_packet;
use crate::request::application_of;
use crate::sending::send;
use ajp_reply::Message;
use ajp_request::{Forward, decode_forward};
use ajp_wire::DecodeError;
use jk_io::Link;
use std::alloc::Global;

/// What a turn is.
#[derive(Clone, Copy)]
pub enum TurnKind {
    Ping,
    Request,
}

/// Serves a connector on its link until the bytes end, or the talk can't go on. After 2^64 - 1 turns it ends as for want
/// of memory.
pub fn serve_ajp<L: Link>(alloc: Global, link: &mut L, app: &AppConfig) -> ContainerEnd
    ensures talk { IsTalk app.now (link_at L.Meanings link.old) (link_at L.Meanings link.new) result }
    ensures fault { result ≡ ContainerEnd.LinkFault → Rose (L.faults link.old) (L.faults link.new) }
    ensures wanted { result ≡ ContainerEnd.NoMemory → L.faults link.new ≡ L.faults link.old }
    ensures no_fewer { L.faults link.old ≤ L.faults link.new }
    ensures same { L.beside link.new ≡ L.beside link.old }
{
    let mut requests = 0;
    'turns: for _ in 0..u64::MAX {
        let kind = match serve_turn(alloc, link, app) {
            Ok(kind) => kind,
            Err(stopped) => return end_of(requests, stopped),
        };
        requests += requests_of(kind);
    }
    ContainerEnd::NoMemory
}

/// How many requests a turn is.
fn requests_of(kind: TurnKind) -> u64
    ensures value { result ≡ requests_of kind }
    ensures most { result ≤ 1 }
{
    match kind {
        TurnKind::Ping => 0,
        TurnKind::Request => 1,
    }
}

/// Serves one turn: a CPing, or a request with its body.
fn serve_turn<L: Link>(alloc: Global, link: &mut L, app: &AppConfig) -> Result<TurnKind, Stopped>
    ensures took { TakesTurn app.now (link_at L.Meanings link.old) (link_at L.Meanings link.new) result }
    ensures no_fewer { L.faults link.old ≤ L.faults link.new }
    ensures same { L.beside link.new ≡ L.beside link.old }
{
    let payload = take_packet(alloc, link, app.packet)?;
    serve_taken(alloc, link, app, payload.as_slice())
}

/// Serves the turn that the payload of a taken packet begins.
fn serve_taken<L: Link>(
    alloc: Global,
    link: &mut L,
    app: &AppConfig,
    payload: &[u8],
) -> Result<TurnKind, Stopped>
    ensures took { (before : Moment) → TookPacket app.now.packet before (link_at L.Meanings link.old) payload.now
        → TakesTurn app.now before (link_at L.Meanings link.new) result }
    ensures no_fewer { L.faults link.old ≤ L.faults link.new }
    ensures same { L.beside link.new ≡ L.beside link.old }
{
    match turn_of(payload) {
        Some(TurnKind::Ping) => pong(alloc, link, app),
        Some(TurnKind::Request) => serve_read(alloc, link, app, payload),
        None => Err(Stopped::Bad(BadPacket::Code)),
    }
}

/// Serves the request whose Forward Request was taken.
fn serve_read<L: Link>(
    alloc: Global,
    link: &mut L,
    app: &AppConfig,
    payload: &[u8],
) -> Result<TurnKind, Stopped>
    requires { IsBegun payload.now (Some TurnKind.Request) }
    ensures took { (before : Moment) → TookPacket app.now.packet before (link_at L.Meanings link.old) payload.now
        → TakesTurn app.now before (link_at L.Meanings link.new) result }
    ensures no_fewer { L.faults link.old ≤ L.faults link.new }
    ensures same { L.beside link.new ≡ L.beside link.old }
{
    let forward = read_request(alloc, payload)?;
    turn_served(serve_request(alloc, link, app, &forward))
}

/// A request that was served is a turn of the kind `Request`.
fn turn_served(served: Result<(), Stopped>) -> Result<TurnKind, Stopped>
    ensures { result ≡ turn_after served }
{
    match served {
        Ok(()) => Ok(TurnKind::Request),
        Err(stop) => Err(stop),
    }
}

/// Which turn a payload begins: a CPing is the byte 0A alone, and a Forward Request begins with 02.
fn turn_of(payload: &[u8]) -> Option<TurnKind>
    ensures { IsBegun payload.now result }
{
    match payload {
        [0x0A] => Some(TurnKind::Ping),
        [0x02, ..] => Some(TurnKind::Request),
        [] | [_, ..] => None,
    }
}

/// Answers a CPing.
fn pong<L: Link>(alloc: Global, link: &mut L, app: &AppConfig) -> Result<TurnKind, Stopped>
    ensures kind { IfOk result (λ kind. kind ≡ TurnKind.Ping) }
    ensures sent { Sends (bytes_of (Pong ∷ [])) (link_at L.Meanings link.old) (link_at L.Meanings link.new) result }
    ensures no_fewer { L.faults link.old ≤ L.faults link.new }
    ensures same { L.beside link.new ≡ L.beside link.old }
{
    let messages = [Message::Pong];
    send(alloc, link, &messages, app.packet)?;
    Ok(TurnKind::Ping)
}

fn read_request(alloc: Global, payload: &[u8]) -> Result<Forward, Stopped>
    ensures { ReadsForward payload.now result }
{
    match decode_forward(alloc, payload) {
        Ok(forward) => Ok(forward),
        Err(error) => Err(stopped_by(error)),
    }
}

fn stopped_by(error: DecodeError) -> Stopped
    ensures { result ≡ stop_of error }
{
    match error {
        DecodeError::NoMemory => Stopped::NoMemory,
        DecodeError::Short { .. }
        | DecodeError::BadCode { .. }
        | DecodeError::BadMark { .. }
        | DecodeError::BadBoolean { .. }
        | DecodeError::Extra { .. }
        | DecodeError::TooMany { .. }
        | DecodeError::Absent { .. } => Stopped::Bad(BadPacket::Request),
    }
}

/// Serves a request, once its Forward Request was read.
fn serve_request<L: Link>(
    alloc: Global,
    link: &mut L,
    app: &AppConfig,
    forward: &Forward,
) -> Result<(), Stopped>
    ensures served { ServesForward app.now forward.now (link_at L.Meanings link.old) (link_at L.Meanings link.new) result }
    ensures no_fewer { L.faults link.old ≤ L.faults link.new }
    ensures same { L.beside link.new ≡ L.beside link.old }
{
    let body = take_body(alloc, link, app, forward)?;
    let messages = app_answer(alloc, app, forward, body)?;
    send(alloc, link, messages.as_slice(), app.packet)?;
    if is_drop(application_of(app, forward)) {
        return Err(Stopped::Dropped);
    }
    Ok(())
}
