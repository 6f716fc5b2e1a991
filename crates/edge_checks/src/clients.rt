//! A client of a front, and the container behind that.
use crate::files::text_in;
use crate::ports::{dialled, link_to};
use ajp_container::{AppConfig, run_container};
use check_rows::row::RowError;
use jk_commands::let_go;
use jk_io::{Bytes, Dial, Files, Link, NoMemory, Stop, fill, write_all};
use real_io::{RealFiles, TcpDial, TcpDoor};
use std::alloc::Global;
use std::net::{Net, TcpListener, TcpStream};
use std::rt::Files as SystemFiles;
use std::sync::Wait;
use std::thread::{self, Threads};
use std::time::Clock;

/// The most bytes that a client gets in a row.
const MOST_BYTES: usize = 65_536;

/// The greatest packet that the container sends or takes.
const PACKET_BYTES: u32 = 8_192;

/// Where a front and the container behind it are.
#[derive(Clone, Copy)]
pub struct Ports {
    pub front: u16,
    pub back: u16,
}

/// What a client asks.
#[derive(Drop)]
pub struct Asking {
    pub ports: Ports,
    pub bytes: Bytes,
    /// At which socket a stop is asked for afterwards, if at any.
    pub control: Option<Bytes>,
}

/// What a client got, and what who asked for a stop was answered.
#[derive(Drop)]
pub struct ClientEnd {
    pub got: Bytes,
    pub stopped: Bytes,
}

/// A container of the route n1.
fn app(alloc: Global) -> Result<AppConfig, NoMemory> {
    Ok(AppConfig {
        route: Bytes::from_slice(alloc, b"n1")?,
        secret: None,
        packet: PACKET_BYTES,
    })
}

/// Serves the one front that comes to a container's door.
fn contain_one<R: Threads + Wait + Sync>(
    rt: &R,
    alloc: Global,
    door: TcpDoor,
) -> Result<(), NoMemory> {
    let app = app(alloc)?;
    let mut doors = Vec::with_capacity(alloc, 1)?;
    doors.push_reserved(door);
    match run_container(rt, alloc, &app, doors) {
        Ok(ended) => let_go(ended),
        Err(_) => return Err(NoMemory),
    }
    Ok(())
}

fn room_of(alloc: Global) -> Result<Vec<u8>, NoMemory> {
    Ok(vec![in alloc; 0u8; MOST_BYTES]?)
}

/// What comes on a link until it ends.
fn read_to_end<L: Link>(alloc: Global, link: &mut L) -> Result<Bytes, RowError> {
    let mut room = room_of(alloc)?;
    let filled = fill(link, room.as_mut_slice());
    if filled.stop != Stop::End {
        return Err(RowError::Unreadable);
    }
    Ok(Bytes::from_slice(alloc, &room.as_slice()[..filled.count])?)
}

/// What comes back on a link, until it ends, for these bytes.
fn answer_on<L: Link>(alloc: Global, link: &mut L, bytes: &[u8]) -> Result<Bytes, RowError> {
    match write_all(link, bytes) {
        Ok(()) => read_to_end(alloc, link),
        Err(_) => Err(RowError::Unreadable),
    }
}

/// What a client gets that sends these bytes to who listens at a port, as soon as somebody does.
fn answer_at<D: Dial, K: Clock>(
    clock: &K,
    alloc: Global,
    dial: &mut D,
    port: u16,
    bytes: &[u8],
) -> Result<Bytes, RowError> {
    let mut link = link_to(clock, alloc, dial, port)?;
    answer_on(alloc, &mut link, bytes)
}

/// What who asks for a stop at a socket is answered once the run ended; nothing where there is no socket.
fn stop_at<F: Files>(
    alloc: Global,
    sockets: &mut F,
    control: Option<&Bytes>,
) -> Result<Bytes, RowError> {
    match control {
        Some(path) => text_in(alloc, sockets, path.as_slice()),
        None => Ok(Bytes::new(alloc)),
    }
}

/// Has a client ask, and then asks for a stop. The container is dialled, so that it ends too where the front didn't dial it.
fn ask<R>(rt: &R, alloc: Global, asking: &Asking) -> Result<ClientEnd, RowError>
where
    R: Clock + SystemFiles + Net<Listener = TcpListener, Stream = TcpStream>,
{
    let Asking {
        ports,
        bytes,
        control,
    } = asking;
    let mut dial = TcpDial::new(rt);
    let got = answer_at(rt, alloc, &mut dial, ports.front, bytes.as_slice());
    let _ = dialled(alloc, &mut dial, ports.back);
    let stopped = stop_at(alloc, &mut RealFiles::sockets(rt), control.as_ref())?;
    Ok(ClientEnd { got: got?, stopped })
}

/// Has the container serve the front, and meanwhile a client ask the front.
pub fn contain_and_ask<R>(
    rt: &R,
    alloc: Global,
    door: TcpDoor,
    asking: &Asking,
) -> Result<ClientEnd, RowError>
where
    R: Threads
        + Wait
        + Clock
        + Sync
        + SystemFiles
        + Net<Listener = TcpListener, Stream = TcpStream>,
{
    let (contained, asked) = thread::join(
        rt,
        move || contain_one(rt, alloc, door),
        move || ask(rt, alloc, asking),
    );
    contained?;
    asked
}
