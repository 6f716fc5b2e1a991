//! Links of a real socket, alone and kept in a pool.
ghost use Rattle.std.specs.Prelude.{◌≡◌, ◌<◌};
ghost use Rattle.conn_pool.specs.Idle.{HasMember};

use crate::idle_reach::{IdleReach, TalkingReach};
use crate::reading::length_read;
use crate::socket_pools::one_pool;
use conn_pool::{Idle, NoTape, PooledReach, Pools};
use jk_io::{Bytes, Dial, Door, IoError, Link, Peer, Reach, Stop, TalkAsked, fill, write_all};
use real_io::{TcpDial, TcpDoor, TcpLink};
use std::alloc::Global;
use std::io;
use std::net::{Net, TcpListener, TcpStream};
use std::rt::Clock;
use std::sync::Wait;

/// A listener of the loopback, and its port.
pub fn listener(
    rt: &impl Net<Listener = TcpListener, Stream = TcpStream>,
) -> io::Result<(TcpListener, u16)> {
    let listener = TcpListener::bind(rt, "127.0.0.1:0")?;
    let port = listener.local_addr()?.port();
    Ok((listener, port))
}

/// A link to the loopback.
pub fn dialled<D: Dial>(alloc: Global, dial: &mut D, port: u16) -> Result<D::L, IoError> {
    let host = Bytes::from_slice(alloc, b"127.0.0.1")?;
    dial.dial(alloc, &host, port)
}

/// Whether what each side sends comes to the other, however it is read.
fn answer_each_other<A: Link, B: Link>(near: &mut A, far: &mut B) -> bool {
    let sent = write_all(near, b"over the loopback") == Ok(());
    let mut head = [0u8; 4];
    let read = far.read(&mut head) == Ok(4) && &head == b"over";
    let more = length_read(far) == 8;
    let back = write_all(far, b"back") == Ok(());
    sent && read && more && back && length_read(near) == 4
}

fn is_local(peer: &Peer) -> bool {
    peer.addr.as_slice() == b"127.0.0.1".as_slice()
}

/// Has a link answered by a client of a door, which is left then.
fn serves<D: Door, A: Link>(door: &mut D, near: &mut A, far: D::L) -> bool
    requires { 0 < D.room door.old }
{
    let mut far = far;
    let answered = answer_each_other(near, &mut far);
    door.leave(far);
    answered
}

/// Whether a door's next client answers a link, and no other comes after it.
fn answers<D: Door, A: Link>(alloc: Global, door: &mut D, near: &mut A) -> bool {
    match door.accept(alloc) {
        Ok(Some((far, peer))) => serves(door, near, far) && is_local(&peer),
        _ => false,
    }
}

fn is_closed<D: Door>(alloc: Global, door: &mut D) -> bool {
    matches!(door.accept(alloc), Ok(None))
}

fn answers_and_closes<D: Door, A: Link>(alloc: Global, door: &mut D, near: &mut A) -> bool {
    answers(alloc, door, near) && is_closed(alloc, door)
}

/// Whether a door answers its one client, and is closed then.
pub fn answers_a_dial<D: Door, E: Dial>(
    alloc: Global,
    door: &mut D,
    dial: &mut E,
    port: u16,
) -> bool {
    match dialled(alloc, dial, port) {
        Ok(near) => {
            let mut near = near;
            answers_and_closes(alloc, door, &mut near)
        }
        Err(_) => false,
    }
}

/// Whether a door of the loopback for one client answers it.
pub fn answer<R: Net<Listener = TcpListener, Stream = TcpStream> + Clock>(
    rt: &R,
    alloc: Global,
) -> bool {
    match listener(rt) {
        Ok((listener, port)) => answers_a_dial(
            alloc,
            &mut TcpDoor::new(listener, Some(1)),
            &mut TcpDial::new(rt),
            port,
        ),
        Err(_) => false,
    }
}

/// Whether a piece comes whole from one end to the other, where it fills the room.
fn carries<A: Link, B: Link>(from: &mut A, to: &mut B, piece: &[u8], room: &mut [u8]) -> bool
    ensures from { A.beside from.new ≡ A.beside from.old }
    ensures to { B.beside to.new ≡ B.beside to.old }
{
    write_all(from, piece) == Ok(()) && fill(to, room).stop == Stop::Full && *room == *piece
}

/// Sends a piece to the far end and back: whether it came back whole.
fn echoes<A: Link, B: Link>(near: &mut A, far: &mut B, piece: &[u8]) -> bool
    ensures { A.beside near.new ≡ A.beside near.old }
{
    let mut buf = [0u8; 8192];
    let room = &mut buf[..piece.len().min(8192)];
    carries(near, far, piece, room) && carries(far, near, piece, room)
}

/// Begins a talk over the loopback: whether its link is new.
fn begins<R: Reach + Drop>(
    alloc: Global,
    idle: IdleReach<R>,
    port: u16,
) -> Result<(TalkingReach<R>, bool), IoError> {
    let IdleReach { mut reach } = idle;
    let host = Bytes::from_slice(alloc, b"127.0.0.1")?;
    let asked = TalkAsked {
        lb: 0,
        member: 0,
        host: &host,
        port,
        fresh: false,
    };
    let fresh = reach.begin(alloc, &asked)?;
    Ok((TalkingReach { reach }, fresh))
}

/// Sends a piece to the far end and back, and ends the talk, whose link is kept: whether the piece came back whole.
fn ends_with<R: Reach, B: Link>(
    talking: TalkingReach<R>,
    far: &mut B,
    piece: &[u8],
) -> (IdleReach<R>, bool) {
    let TalkingReach { mut reach } = talking;
    let whole = echoes(&mut reach, far, piece);
    reach.finish(true);
    (IdleReach { reach }, whole)
}

/// A talk over the link that was kept.
fn serves_again<R: Reach + Drop, B: Link>(
    alloc: Global,
    idle: IdleReach<R>,
    port: u16,
    far: &mut B,
) -> bool {
    match begins(alloc, idle, port) {
        Ok((talking, fresh)) => {
            let (_idle, whole) = ends_with(talking, far, &[7; 8192]);
            whole && !fresh
        }
        Err(_) => false,
    }
}

/// Ends the first talk over a link, and has a second one over the same.
fn serves_twice<R: Reach + Drop, B: Link>(
    alloc: Global,
    talking: TalkingReach<R>,
    port: u16,
    far: &mut B,
) -> bool {
    let (idle, whole) = ends_with(talking, far, b"first");
    whole && serves_again(alloc, idle, port, far)
}

/// Has a client of a door serve both talks, and leaves it.
fn serves_both<R: Reach + Drop, D: Door>(
    alloc: Global,
    talking: TalkingReach<R>,
    port: u16,
    door: &mut D,
    far: D::L,
) -> bool
    requires room { 0 < D.room door.old }
{
    let mut far = far;
    let served = serves_twice(alloc, talking, port, &mut far);
    door.leave(far);
    served
}

/// Whether a door's next client serves the running talk and another.
fn is_served<R: Reach + Drop, D: Door>(
    alloc: Global,
    talking: TalkingReach<R>,
    port: u16,
    door: &mut D,
) -> bool {
    match door.accept(alloc) {
        Ok(Some((far, _))) => serves_both(alloc, talking, port, door, far),
        _ => false,
    }
}

/// Whether a door's one client serves a talk, whose link is new, and the next.
fn keeps_its_link<R: Reach + Drop, D: Door>(
    alloc: Global,
    idle: IdleReach<R>,
    port: u16,
    door: &mut D,
) -> bool {
    match begins(alloc, idle, port) {
        Ok((talking, fresh)) => is_served(alloc, talking, port, door) && fresh,
        Err(_) => false,
    }
}

fn keeps_in<D: Door, R: Net<Stream = TcpStream> + Wait>(
    rt: &R,
    alloc: Global,
    pools: &Pools<'_, Idle<TcpLink>, R>,
    door: &mut D,
    port: u16,
) -> bool
    requires { HasMember pools.now 0 0 }
{
    let reach = PooledReach::new(pools, TcpDial::new(rt), NoTape);
    keeps_its_link(alloc, IdleReach { reach }, port, door)
}

/// Whether a link is kept over the pool of one member, which has room for one link.
fn keeps_over<D: Door, R: Net<Stream = TcpStream> + Wait>(
    rt: &R,
    alloc: Global,
    door: &mut D,
    port: u16,
) -> bool {
    let Ok(sizes) = one_pool(alloc, 1) else {
        return false;
    };
    match Pools::new(rt, alloc, &sizes) {
        Ok(pools) => keeps_in(rt, alloc, &pools, door, port),
        Err(_) => false,
    }
}

/// Whether a link to a door of the loopback is kept after its talk, and serves the next.
pub fn keep_a_link<R: Net<Listener = TcpListener, Stream = TcpStream> + Clock + Wait>(
    rt: &R,
    alloc: Global,
) -> bool {
    match listener(rt) {
        Ok((listener, port)) => keeps_over(rt, alloc, &mut TcpDoor::new(listener, Some(1)), port),
        Err(_) => false,
    }
}
