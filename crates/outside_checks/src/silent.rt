//! Members that say nothing, over sockets: each wait ends in time.
ghost use Rattle.std.specs.Prelude.{◌<◌};

use crate::sockets::{dialled, listener};
use jk_io::{Awaited, Dial, Door, IoError, Link, write_all};
use libc::net::listen;
use real_io::{TcpDial, TcpDoor, moment};
use std::alloc::Global;
use std::net::{Net, TcpListener, TcpStream};
use std::os::fd::AsRawFd;

const LIMIT_MILLIS: u64 = 400;

/// A limit and half a second.
const LATE_MILLIS: u64 = 900;

/// Whether a wait that began at this moment ended in time.
fn is_in_time(begun: u64) -> bool {
    let took = moment().saturating_sub(begun);
    LIMIT_MILLIS <= took && took <= LATE_MILLIS
}

/// Whether a link's next read fails in time.
fn fails_in_time<L: Link>(link: &mut L, awaited: Awaited) -> bool {
    link.await_next(awaited);
    let begun = moment();
    link.read(&mut [0u8; 8]) == Err(IoError::Failed) && is_in_time(begun)
}

/// A listener of which nobody takes a client, and a link to it.
fn with_mute<R: Net<Listener = TcpListener, Stream = TcpStream>, D: Dial>(
    rt: &R,
    alloc: Global,
    dial: &mut D,
) -> Option<(TcpListener, D::L)> {
    let (listener, port) = listener(rt).ok()?;
    let link = dialled(alloc, dial, port).ok()?;
    Some((listener, link))
}

/// Whether a member that says nothing is given up.
pub fn gives_up_on_a_mute_member<R: Net<Listener = TcpListener, Stream = TcpStream>>(
    rt: &R,
    alloc: Global,
) -> bool {
    match with_mute(rt, alloc, &mut TcpDial::new(rt)) {
        Some((_listener, link)) => {
            let mut link = link;
            let millis = LIMIT_MILLIS;
            fails_in_time(&mut link, Awaited::Pong { millis })
        }
        None => false,
    }
}

/// Whether a member that answered once, to a CPing, is given up where it says nothing more.
fn answers_once<L: Link, M: Link>(link: &mut L, member: &mut M) -> bool {
    let millis = LIMIT_MILLIS;
    link.await_next(Awaited::Pong { millis });
    write_all(member, b"pong") == Ok(())
        && link.read(&mut [0u8; 8]) == Ok(4)
        && fails_in_time(link, Awaited::Reply { millis })
}

fn answers_at<L: Link, D: Door>(alloc: Global, link: &mut L, door: &mut D) -> bool {
    match door.accept(alloc) {
        Ok(Some((member, _))) => answers_and_leaves(link, door, member),
        _ => false,
    }
}

fn answers_and_leaves<L: Link, D: Door>(link: &mut L, door: &mut D, member: D::L) -> bool
    requires { 0 < D.room door.old }
{
    let mut member = member;
    let held = answers_once(link, &mut member);
    door.leave(member);
    held
}

/// As `answers_once`, over the loopback.
pub fn gives_up_after_one_answer<R: Net<Listener = TcpListener, Stream = TcpStream>>(
    rt: &R,
    alloc: Global,
) -> bool {
    match with_mute(rt, alloc, &mut TcpDial::new(rt)) {
        Some((listener, link)) => {
            let mut link = link;
            answers_at(alloc, &mut link, &mut TcpDoor::new(listener, Some(1)))
        }
        None => false,
    }
}

/// Whether a dial fails in time.
fn dial_fails<D: Dial>(alloc: Global, dial: &mut D, port: u16) -> bool {
    dial.await_dial(LIMIT_MILLIS, true);
    let begun = moment();
    dialled(alloc, dial, port).is_err() && is_in_time(begun)
}

/// Whether a dial to an address that drops its packets is given up: one whose queue is full.
pub fn gives_up_on_a_dial<R: Net<Listener = TcpListener, Stream = TcpStream>>(
    rt: &R,
    alloc: Global,
) -> bool {
    let Ok((listener, port)) = listener(rt) else {
        return false;
    };
    listen(listener.as_raw_fd(), 0);
    let mut dial = TcpDial::new(rt);
    let first = dialled(alloc, &mut dial, port);
    let is_there = first.is_ok();
    let given_up = dial_fails(alloc, &mut dial, port);
    drop(first);
    is_there && given_up
}
