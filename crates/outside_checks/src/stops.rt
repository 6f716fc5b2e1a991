//! A stop over the control socket while a worker has a client.
ghost use Rattle.std.specs.Prelude.{◌<◌};

use crate::reading::read_len;
use crate::rooms::{HEAD, REPLY, is_closed, limits, replies, sends};
use crate::sockets::dialled;
use jk_io::{Bytes, Door, Link};
use real_io::{Outbox, TcpDial};
use std::alloc::Global;
use std::fs;
use std::io::Write;
use std::net::{Net, TcpListener, TcpStream};
use std::os::unix::net::UnixStream;
use std::rt::{Clock, Files};
use std::sync::{Arc, Wait};
use std::thread::sleep;
use std::time::Duration;
use waiting_room::{Room, RoomDoor, open_room};

/// The control socket.
const PATH: &str = "./stops.sock";

/// The seconds that a request under way may take after a stop.
const GRACE_SECONDS: u64 = 30;

/// When the client is answered after a stop: later than if the grace were told in milliseconds.
const ANSWER_MILLIS: u64 = 60;

fn room_on<R: Net + Files>(rt: &R, alloc: Global) -> Option<Arc<Room>> {
    let address = Bytes::from_slice(alloc, b"127.0.0.1:0").ok()?;
    let path = Bytes::from_slice(alloc, PATH.as_bytes()).ok()?;
    let limits = limits(20, 60, 10);
    let room = open_room(rt, alloc, &address, limits, Some(&path), GRACE_SECONDS).ok()?;
    Arc::new(alloc, room).ok()
}

fn door_into<'r, R: Wait + Eprint>(
    rt: &'r R,
    alloc: Global,
    room: &Arc<Room>,
) -> Option<RoomDoor<'r, R>> {
    let room = Arc::try_clone(room).ok()?;
    let outbox = Outbox::new(alloc).ok()?;
    Some(RoomDoor::new(rt, room, outbox, Some(2)))
}

/// Asks for a stop.
fn asks<R: Net>(rt: &R) -> bool {
    match UnixStream::connect(rt, PATH) {
        Ok(stream) => {
            let mut stream = stream;
            stream.write_all(b"stop\n").is_ok()
        }
        Err(_) => false,
    }
}

/// Whether a client whom a worker has is served after a stop, which another worker's door hears.
fn serves_on<R: Net + Clock, D: Door, O: Door>(
    rt: &R,
    alloc: Global,
    door: &mut D,
    other: &mut O,
    link: D::L,
) -> bool
    requires { 0 < D.room door.old }
{
    let mut link = link;
    let stopped = asks(rt) && is_closed(alloc, other);
    sleep(rt, Duration::from_millis(ANSWER_MILLIS));
    let served = stopped && replies(&mut link, HEAD.len());
    door.leave(link);
    served
}

fn serves_next<R: Net + Clock, D: Door, O: Door>(
    rt: &R,
    alloc: Global,
    door: &mut D,
    other: &mut O,
) -> bool {
    match door.accept(alloc) {
        Ok(Some((link, _))) => serves_on(rt, alloc, door, other, link),
        _ => false,
    }
}

/// Whether a client gets its whole reply though a stop came first, and no client comes any more.
fn spares<R: Net + Clock, D: Door, O: Door, C: Link>(
    rt: &R,
    alloc: Global,
    door: &mut D,
    other: &mut O,
    client: &mut C,
) -> bool {
    sends(client, HEAD)
        && serves_next(rt, alloc, door, other)
        && read_len(client) == REPLY.len()
        && is_closed(alloc, door)
}

/// As `spares`, of a room whose control socket is there.
fn spares_in<R: Net<Listener = TcpListener, Stream = TcpStream> + Clock + Wait + Eprint>(
    rt: &R,
    alloc: Global,
    room: &Arc<Room>,
) -> Option<bool> {
    let mut door = door_into(rt, alloc, room)?;
    let mut other = door_into(rt, alloc, room)?;
    let mut client = dialled(alloc, &mut TcpDial::new(rt), room.port()?).ok()?;
    Some(spares(rt, alloc, &mut door, &mut other, &mut client))
}

/// Whether a stop spares the client whom a worker has.
pub fn spare_a_client<
    R: Net<Listener = TcpListener, Stream = TcpStream> + Clock + Files + Wait + Eprint,
>(rt: &R, alloc: Global) -> bool {
    let Some(room) = room_on(rt, alloc) else {
        return false;
    };
    let spared = spares_in(rt, alloc, &room) == Some(true);
    spared && fs::remove_file(rt, PATH).is_ok()
}
