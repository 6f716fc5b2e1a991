//! The body of a request, as far as the container asks for it.
ghost use Rattle.std.specs.Prelude.{◌≡◌, ◌^◌, ◌<◌, ◌≤◌, [], ◌∷◌, length, IfOk, IsTrue, OnOk};
ghost use Rattle.ajp_container.specs.Answer.{bytes_of};
ghost use Rattle.ajp_container.specs.Request.{asks_body as asks_body_of};
ghost use Rattle.ajp_container.specs.Turns.{is_enough as is_enough_for, ask as ask_of};
ghost use Rattle.ajp_wire.specs.Moments.{link_at};
ghost use Rattle.ajp_container.specs.Steps.{Sends, TakesFirst, TakesRest, TakesBody, taken_into};

use crate::app_config::AppConfig;
use crate::ends::Stopped;
use crate::packets::take_piece;
use crate::request::{asks_body, content_length, has_first};
use crate::sending::send;
use ajp_reply::Message;
use ajp_request::Forward;
use jk_io::{Bytes, Link};
use std::alloc::Global;

/// What stands in a body packet beside the data: the head and the length.
const PIECE_FRAME: u32 = 6;

/// Takes the body of a request: its first packet, where it has one, and the rest where it is asked for.
pub fn take_body<L: Link>(
    alloc: Global,
    link: &mut L,
    app: &AppConfig,
    forward: &Forward,
) -> Result<Bytes, Stopped>
    ensures took { TakesBody app.now forward.now (link_at L.Meanings link.old) (link_at L.Meanings link.new) result }
    ensures small { IfOk result (λ all. length all < 2 ^ 64) }
    ensures no_fewer { L.faults link.old ≤ L.faults link.new }
    ensures same { L.beside link.new ≡ L.beside link.old }
{
    let first = take_first(alloc, link, app, forward)?;
    if !asks_body(app, forward) {
        return Ok(first);
    }
    take_rest(alloc, link, app, forward, first)
}

/// Takes the first body packet, where the request has one.
fn take_first<L: Link>(
    alloc: Global,
    link: &mut L,
    app: &AppConfig,
    forward: &Forward,
) -> Result<Bytes, Stopped>
    ensures took { TakesFirst app.now forward.now (link_at L.Meanings link.old) (link_at L.Meanings link.new) result }
    ensures no_fewer { L.faults link.old ≤ L.faults link.new }
    ensures same { L.beside link.new ≡ L.beside link.old }
{
    let mut body = Bytes::new(alloc);
    if has_first(forward) {
        take_piece(alloc, link, app.packet, &mut body)?;
    }
    Ok(body)
}

/// Asks for the rest of a body, until it has the length that the request names, or nothing is left.
fn take_rest<L: Link>(
    alloc: Global,
    link: &mut L,
    app: &AppConfig,
    forward: &Forward,
    mut body: Bytes,
) -> Result<Bytes, Stopped>
    requires { IsTrue (asks_body_of app.now forward.now) }
    ensures took { TakesRest app.now forward.now body (link_at L.Meanings link.old) (link_at L.Meanings link.new) result }
    ensures small { IfOk result (λ all. length all < 2 ^ 64) }
    ensures no_fewer { L.faults link.old ≤ L.faults link.new }
    ensures same { L.beside link.new ≡ L.beside link.old }
{
    add_rest(alloc, link, app, forward, &mut body)?;
    Ok(body)
}

/// Adds the rest of a body to its front.
fn add_rest<L: Link>(
    alloc: Global,
    link: &mut L,
    app: &AppConfig,
    forward: &Forward,
    body: &mut Bytes,
) -> Result<(), Stopped>
    requires { IsTrue (asks_body_of app.now forward.now) }
    ensures took { TakesRest app.now forward.now body.old (link_at L.Meanings link.old) (link_at L.Meanings link.new) (taken_into result body.new) }
    ensures small { OnOk result (length body.new < 2 ^ 64) }
    ensures no_fewer { L.faults link.old ≤ L.faults link.new }
    ensures same { L.beside link.new ≡ L.beside link.old }
{
    let named = content_length(forward);
    'asks: while !is_enough(named, body.len()) {
        ask(alloc, link, app)?;
        let len = take_piece(alloc, link, app.packet, body)?;
        if len == 0 {
            return Ok(());
        }
    }
    Ok(())
}

/// Whether `len` bytes are as many as the request names.
fn is_enough(named: Option<u64>, len: usize) -> bool
    ensures { result ≡ is_enough_for named len }
{
    match named {
        Some(named) => named <= len as u64,
        None => false,
    }
}

/// Asks for as many bytes as a packet holds.
fn ask<L: Link>(alloc: Global, link: &mut L, app: &AppConfig) -> Result<(), Stopped>
    ensures sent { Sends (bytes_of (ask_of app.now ∷ [])) (link_at L.Meanings link.old) (link_at L.Meanings link.new) result }
    ensures no_fewer { L.faults link.old ≤ L.faults link.new }
    ensures same { L.beside link.new ≡ L.beside link.old }
{
    let messages = [Message::Ask((app.packet - PIECE_FRAME) as u16)];
    send(alloc, link, &messages, app.packet)
}
