//! Clients that wait in a room, over sockets.
ghost use Rattle.std.specs.Prelude.{◌≡◌, ◌+◌, ◌<◌};

use crate::reading::read_len;
use crate::sockets::dialled;
use jk_io::{Awaited, Bytes, ClientLimits, Dial, Door, Link, write_all};
use real_io::{Outbox, TcpDial};
use std::alloc::Global;
use std::net::{Net, TcpListener, TcpStream};
use std::rt::Files;
use std::sync::{Arc, Wait};
use waiting_room::{Room, RoomDoor, open_room};

pub(crate) const HEAD: &[u8] = b"GET / HTTP/1.1\r\n\r\n";

/// A head, and a part of the next one.
const HEAD_AND_PART: &[u8] = b"GET / HTTP/1.1\r\n\r\nGET / HTT";

const PART_BYTES: usize = 9;

pub(crate) const REPLY: &[u8] = b"HTTP/1.1 200 OK\r\nContent-Length: 0\r\n\r\n";

/// Limits by which a test ends soon.
pub(crate) fn limits(head: u64, keep: u64, waiting: u64) -> ClientLimits {
    ClientLimits {
        head,
        keep,
        rate: 500,
        waiting,
    }
}

fn room_on<R: Net + Files>(rt: &R, alloc: Global, limits: ClientLimits) -> Option<Arc<Room>> {
    let address = Bytes::from_slice(alloc, b"127.0.0.1:0").ok()?;
    let room = open_room(rt, alloc, &address, limits, None, 0).ok()?;
    Arc::new(alloc, room).ok()
}

/// A worker's door into a room, its port, and a dial for its clients.
#[derive(Drop)]
struct Front<D, E> {
    door: D,
    port: u16,
    dial: E,
}

fn front_in<'r, R: Net<Stream = TcpStream> + Wait + Eprint>(
    rt: &'r R,
    alloc: Global,
    room: Arc<Room>,
    clients: u64,
) -> Option<Front<RoomDoor<'r, R>, TcpDial<'r, R>>> {
    let port = room.port()?;
    let outbox = Outbox::new(alloc).ok()?;
    let door = RoomDoor::new(rt, room, outbox, Some(clients));
    let dial = TcpDial::new(rt);
    Some(Front { door, port, dial })
}

/// A front for so many clients, with these limits.
fn new_front<'r, R: Net<Listener = TcpListener, Stream = TcpStream> + Files + Wait + Eprint>(
    rt: &'r R,
    alloc: Global,
    clients: u64,
    limits: ClientLimits,
) -> Option<Front<RoomDoor<'r, R>, TcpDial<'r, R>>> {
    front_in(rt, alloc, room_on(rt, alloc, limits)?, clients)
}

/// Whether so many bytes of a client come, and its reply goes out.
pub(crate) fn replies<L: Link>(link: &mut L, came: usize) -> bool {
    link.await_next(Awaited::Client);
    read_len(link) == came && write_all(link, REPLY) == Ok(()) && link.flush() == Ok(())
}

/// Serves the next client, and leaves its link: whether its head came, and it waits then.
fn serves_next<D: Door>(alloc: Global, door: &mut D) -> bool {
    serves_one(alloc, door, true)
}

/// Serves the next client, and leaves its link: whether its head came, and whether it waits then, as is told.
fn serves_one<D: Door>(alloc: Global, door: &mut D, waits: bool) -> bool {
    match door.accept(alloc) {
        Ok(Some((link, _))) => serves(door, link, waits),
        _ => false,
    }
}

fn serves<D: Door>(door: &mut D, link: D::L, waits: bool) -> bool
    requires { 0 < D.room door.old }
{
    let mut link = link;
    let served = replies(&mut link, HEAD.len()) && link.waits() == waits;
    door.leave(link);
    served
}

/// Whether no client comes any more.
pub(crate) fn is_closed<D: Door>(alloc: Global, door: &mut D) -> bool {
    matches!(door.accept(alloc), Ok(None))
}

pub(crate) fn sends<L: Link>(link: &mut L, piece: &[u8]) -> bool {
    write_all(link, piece) == Ok(())
}

/// Whether a client's link is given again once its next head is whole, and closed once it has waited too long between two.
fn comes_again<D: Door, C: Link>(alloc: Global, door: &mut D, client: &mut C) -> bool {
    sends(client, HEAD)
        && serves_next(alloc, door)
        && read_len(client) == REPLY.len()
        && sends(client, HEAD)
        && serves_next(alloc, door)
        && read_len(client) == REPLY.len()
        && is_closed(alloc, door)
        && read_len(client) == 0
}

/// Whether a client whose head stays without an end is closed, and another one is served meanwhile.
fn slow_head<D: Door, C: Link, B: Link>(
    alloc: Global,
    door: &mut D,
    slow: &mut C,
    other: &mut B,
) -> bool {
    sends(slow, b"GET / HT")
        && sends(other, HEAD)
        && serves_next(alloc, door)
        && read_len(other) == REPLY.len()
        && is_closed(alloc, door)
        && read_len(slow) == 0
}

/// Whether a head that comes in two pieces comes whole to the worker.
fn two_pieces<D: Door, C: Link, B: Link>(
    alloc: Global,
    door: &mut D,
    slow: &mut C,
    other: &mut B,
) -> bool {
    sends(slow, &HEAD[..9])
        && sends(other, HEAD)
        && serves_next(alloc, door)
        && read_len(other) == REPLY.len()
        && sends(slow, &HEAD[9..])
        && serves_next(alloc, door)
        && read_len(slow) == REPLY.len()
}

/// Whether a part of a head that came after a whole one waits in the room, and another client is served meanwhile.
fn part_waits<D: Door, C: Link, B: Link>(
    alloc: Global,
    door: &mut D,
    first: &mut C,
    other: &mut B,
) -> bool {
    sends(first, HEAD_AND_PART)
        && serves_next(alloc, door)
        && read_len(first) == REPLY.len()
        && sends(other, HEAD)
        && serves_next(alloc, door)
        && read_len(other) == REPLY.len()
        && sends(first, &HEAD[PART_BYTES..])
        && serves_next(alloc, door)
        && read_len(first) == REPLY.len()
}

/// Whether the one who waits goes where another comes and one may wait.
fn one_waits<D: Door, C: Link, B: Link>(
    alloc: Global,
    door: &mut D,
    first: &mut C,
    other: &mut B,
) -> bool {
    sends(other, HEAD)
        && serves_next(alloc, door)
        && read_len(other) == REPLY.len()
        && read_len(first) == 0
}

/// Whether a client that sends more than is read gets its whole reply.
fn lingers<D: Door, C: Link>(alloc: Global, door: &mut D, client: &mut C) -> bool {
    sends(client, HEAD)
        && sends(client, &[7; 32_768])
        && serves_one(alloc, door, false)
        && read_len(client) == REPLY.len()
        && read_len(client) == 0
}

/// A client of a front.
fn client<D, E: Dial>(alloc: Global, front: &mut Front<D, E>) -> Option<E::L> {
    dialled(alloc, &mut front.dial, front.port).ok()
}

/// Which claim is looked at.
#[derive(Clone, Copy, PartialEq, Eq)]
pub enum Claim {
    ComesAgain,
    Lingers,
    SlowHead,
    TwoPieces,
    PartWaits,
    OneWaits,
}

fn holds_of_one<D: Door, C: Link>(
    alloc: Global,
    claim: Claim,
    door: &mut D,
    client: &mut C,
) -> bool {
    match claim {
        Claim::ComesAgain => comes_again(alloc, door, client),
        _ => lingers(alloc, door, client),
    }
}

fn holds_of_two<D: Door, C: Link>(
    alloc: Global,
    claim: Claim,
    door: &mut D,
    first: &mut C,
    other: &mut C,
) -> bool {
    match claim {
        Claim::SlowHead => slow_head(alloc, door, first, other),
        Claim::TwoPieces => two_pieces(alloc, door, first, other),
        Claim::PartWaits => part_waits(alloc, door, first, other),
        _ => one_waits(alloc, door, first, other),
    }
}

fn holds_with<D: Door, E: Dial>(
    alloc: Global,
    claim: Claim,
    front: &mut Front<D, E>,
    first: E::L,
) -> bool {
    let mut first = first;
    if matches!(claim, Claim::ComesAgain | Claim::Lingers) {
        return holds_of_one(alloc, claim, &mut front.door, &mut first);
    }
    match client(alloc, front) {
        Some(other) => {
            let mut other = other;
            holds_of_two(alloc, claim, &mut front.door, &mut first, &mut other)
        }
        None => false,
    }
}

fn holds_in<D: Door, E: Dial>(alloc: Global, claim: Claim, front: &mut Front<D, E>) -> bool {
    match client(alloc, front) {
        Some(first) => holds_with(alloc, claim, front, first),
        None => false,
    }
}

/// How many clients come, and their limits.
fn limits_of(claim: Claim) -> (u64, ClientLimits) {
    match claim {
        Claim::ComesAgain => (1, limits(20, 1, 10)),
        Claim::Lingers => (1, limits(20, 60, 10)),
        Claim::SlowHead => (2, limits(1, 1, 10)),
        Claim::TwoPieces | Claim::PartWaits => (2, limits(20, 60, 10)),
        Claim::OneWaits => (2, limits(20, 60, 1)),
    }
}

/// Whether a claim holds, over the loopback.
pub fn holds<R: Net<Listener = TcpListener, Stream = TcpStream> + Files + Wait + Eprint>(
    rt: &R,
    alloc: Global,
    claim: Claim,
) -> bool {
    let (clients, limits) = limits_of(claim);
    match new_front(rt, alloc, clients, limits) {
        Some(front) => {
            let mut front = front;
            holds_in(alloc, claim, &mut front)
        }
        None => false,
    }
}
