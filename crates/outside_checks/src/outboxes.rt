//! An outbox over sockets: bytes to a client are held back until the worker waits.
ghost use Rattle.std.specs.Prelude.{◌<◌};

use crate::reading::length_read;
use crate::sockets::{dialled, listener};
use jk_io::{Dial, Door, Link, write_all};
use real_io::{Outbox, TcpDial, TcpDoor};
use std::alloc::Global;
use std::net::{Net, TcpListener, TcpStream};
use std::rt::Clock;

fn is_written<L: Link>(link: &mut L, piece: &[u8]) -> bool {
    write_all(link, piece) == Ok(())
}

/// Whether two pieces for a client come together, once the worker writes to its member.
fn comes_before_a_write<A: Link, B: Link, M: Link>(
    client: &mut A,
    worker: &mut B,
    member: &mut M,
) -> bool {
    is_written(worker, b"ab")
        && is_written(worker, b"cd")
        && is_written(member, b"x")
        && length_read(client) == 4
}

/// Whether a piece comes once the worker waits for its member.
fn comes_before_a_wait<A: Link, B: Link, M: Link, K: Link>(
    client: &mut A,
    worker: &mut B,
    member: &mut M,
    container: &mut K,
) -> bool {
    is_written(worker, b"ef")
        && length_read(container) == 1
        && is_written(container, b"y")
        && length_read(member) == 1
        && length_read(client) == 2
}

/// Whether a piece comes once the worker reads from its client.
fn comes_before_a_read<A: Link, B: Link>(client: &mut A, worker: &mut B) -> bool {
    is_written(worker, b"gh")
        && is_written(client, b"q")
        && length_read(worker) == 1
        && length_read(client) == 2
}

/// Whether a piece comes in time in all three cases, for a client, its worker's link, a member's link and its container's end.
fn comes_in_time<A: Link, B: Link, M: Link, K: Link>(
    client: &mut A,
    worker: &mut B,
    member: &mut M,
    container: &mut K,
) -> bool {
    comes_before_a_write(client, worker, member)
        && comes_before_a_wait(client, worker, member, container)
        && comes_before_a_read(client, worker)
}

/// Whether a piece comes once the worker has left its client, and nothing after it.
fn came_at_the_end<A: Link>(client: &mut A) -> bool {
    length_read(client) == 2 && length_read(client) == 0
}

/// Whether all comes in time, and the last piece once the door leaves the worker's link.
fn serves<A: Link, D: Door, M: Link, K: Link>(
    client: &mut A,
    door: &mut D,
    worker: D::L,
    member: &mut M,
    container: &mut K,
) -> bool
    requires { 0 < D.room door.old }
{
    let mut worker = worker;
    let held = comes_in_time(client, &mut worker, member, container);
    let written = is_written(&mut worker, b"lm");
    door.leave(worker);
    held && written && came_at_the_end(client)
}

/// A worker's door, with its port, and its dial, which share an outbox.
#[derive(Drop)]
struct Worker<D, E> {
    door: D,
    port: u16,
    dial: E,
}

/// As `serves`, for a worker's next client, with a member's link that the worker's dial lends.
fn serves_next<A: Link, D: Door, E: Dial, K: Link>(
    alloc: Global,
    client: &mut A,
    worker: &mut Worker<D, E>,
    member: &mut E::L,
    container: &mut K,
) -> bool {
    match worker.door.accept(alloc) {
        Ok(Some((link, _))) => {
            worker.dial.lend(member);
            serves(client, &mut worker.door, link, member, container)
        }
        _ => false,
    }
}

/// As `serves_next`, with this link of a container, which is left then.
fn serves_with<A: Link, D: Door, E: Dial, K: Door>(
    alloc: Global,
    client: &mut A,
    worker: &mut Worker<D, E>,
    member: &mut E::L,
    containers: &mut K,
    container: K::L,
) -> bool
    requires { 0 < K.room containers.old }
{
    let mut container = container;
    let served = serves_next(alloc, client, worker, member, &mut container);
    containers.leave(container);
    served
}

/// As `serves_with`, once the container's end of the member's link is there.
fn with_container<A: Link, D: Door, E: Dial, K: Door>(
    alloc: Global,
    client: &mut A,
    worker: &mut Worker<D, E>,
    member: &mut E::L,
    containers: &mut K,
) -> bool {
    match containers.accept(alloc) {
        Ok(Some((container, _))) => {
            serves_with(alloc, client, worker, member, containers, container)
        }
        _ => false,
    }
}

/// As `with_container`, for a client that is dialled here.
fn with_client<D: Door, E: Dial, K: Door>(
    alloc: Global,
    worker: &mut Worker<D, E>,
    other: &mut E,
    member: &mut E::L,
    containers: &mut K,
) -> bool {
    match dialled(alloc, other, worker.port) {
        Ok(client) => {
            let mut client = client;
            with_container(alloc, &mut client, worker, member, containers)
        }
        Err(_) => false,
    }
}

/// As `with_client`, where the dial of another worker dials the member.
fn with_member<D: Door, E: Dial, K: Door>(
    alloc: Global,
    worker: &mut Worker<D, E>,
    other: &mut E,
    containers: &mut K,
    port: u16,
) -> bool {
    match dialled(alloc, other, port) {
        Ok(member) => {
            let mut member = member;
            with_client(alloc, worker, other, &mut member, containers)
        }
        Err(_) => false,
    }
}

fn with_containers<R: Net<Listener = TcpListener, Stream = TcpStream> + Clock, D: Door, E: Dial>(
    rt: &R,
    alloc: Global,
    worker: &mut Worker<D, E>,
    other: &mut E,
) -> bool {
    match listener(rt) {
        Ok((members, port)) => with_member(
            alloc,
            worker,
            other,
            &mut TcpDoor::new(members, Some(1)),
            port,
        ),
        Err(_) => false,
    }
}

fn dial_on<'r, R: Net<Stream = TcpStream>>(rt: &'r R, outbox: &Outbox) -> Option<TcpDial<'r, R>> {
    Some(TcpDial::with_outbox(rt, outbox.share().ok()?))
}

/// The dial of another worker.
fn other_dial<'r, R: Net<Stream = TcpStream>>(rt: &'r R, alloc: Global) -> Option<TcpDial<'r, R>> {
    Some(TcpDial::with_outbox(rt, Outbox::new(alloc).ok()?))
}

fn with_other<'r, R: Net<Listener = TcpListener, Stream = TcpStream> + Clock>(
    rt: &'r R,
    alloc: Global,
    worker: &mut Worker<TcpDoor, TcpDial<'r, R>>,
) -> bool {
    match other_dial(rt, alloc) {
        Some(other) => {
            let mut other = other;
            with_containers(rt, alloc, worker, &mut other)
        }
        None => false,
    }
}

fn door_with(listener: TcpListener, outbox: &Outbox) -> Option<TcpDoor> {
    Some(TcpDoor::with_outbox(listener, Some(1), outbox.share().ok()?))
}

fn worker_with<'r, R: Net<Stream = TcpStream> + Clock>(
    rt: &'r R,
    door: TcpDoor,
    port: u16,
    outbox: &Outbox,
) -> Option<Worker<TcpDoor, TcpDial<'r, R>>> {
    let dial = dial_on(rt, outbox)?;
    Some(Worker { door, port, dial })
}

/// A worker on a port of the loopback, for one client, whose bytes this outbox holds back.
fn worker_on<'r, R: Net<Listener = TcpListener, Stream = TcpStream> + Clock>(
    rt: &'r R,
    outbox: &Outbox,
) -> Option<Worker<TcpDoor, TcpDial<'r, R>>> {
    let (clients, port) = listener(rt).ok()?;
    worker_with(rt, door_with(clients, outbox)?, port, outbox)
}

fn new_worker<'r, R: Net<Listener = TcpListener, Stream = TcpStream> + Clock>(
    rt: &'r R,
    alloc: Global,
) -> Option<Worker<TcpDoor, TcpDial<'r, R>>> {
    worker_on(rt, &Outbox::new(alloc).ok()?)
}

/// Whether what is written to a client over the loopback is held back until its worker waits, and no longer.
pub fn hold_back<R: Net<Listener = TcpListener, Stream = TcpStream> + Clock>(
    rt: &R,
    alloc: Global,
) -> bool {
    match new_worker(rt, alloc) {
        Some(worker) => {
            let mut worker = worker;
            with_other(rt, alloc, &mut worker)
        }
        None => false,
    }
}
