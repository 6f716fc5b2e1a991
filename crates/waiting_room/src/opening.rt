//! Opening a room.
ghost use Rattle.std.specs.Prelude.{◌≡◌, IfOk, IfSome, is_some};

use crate::control::{Askers, Control};
use crate::room::{CONTROL, LISTENER, Lead, Room};
use crate::table::Table;
use jk_io::{Bytes, ClientLimits, NoMemory};
use mio::unix::SourceFd;
use mio::{Events, Interest, Poll, Registry, Token};
use real_io::{Ending, Leisure, Tally, moment};
use std::alloc::Global;
use std::io::ErrorKind;
use std::net::{Net, SocketAddr, TcpListener, ToSocketAddrs};
use std::os::fd::AsRawFd;
use std::os::unix::fs::FileTypeExt;
use std::os::unix::net::{UnixListener, UnixStream};
use std::rt::Files;
use std::sync::Mutex;
use std::sync::atomic::AtomicU64;
use std::{fs, io};
use thiserror::Error;

/// How many events are taken at once.
const MOST_EVENTS: usize = 1_024;

/// Why a room can't be opened.
#[derive(Debug, Drop, Error)]
pub enum OpenRoomError {
    /// Clients can't be waited for.
    #[error("{0}")]
    Listen(io::Error),
    /// The control socket can't be made.
    #[error("{0}")]
    Control(io::Error),
    #[error("out of memory")]
    NoMemory,
}

impl From<NoMemory> for OpenRoomError {
    fn from(_error: NoMemory) -> OpenRoomError {
        OpenRoomError::NoMemory
    }
}

/// Opens a room for the clients of an address, HOST:PORT, with these limits. A stop is asked for at the socket `control`, if
/// it is given, and requests under way may then take `grace` seconds.
pub fn open_room<R: Net + Files>(
    rt: &R,
    alloc: Global,
    address: &Bytes,
    limits: ClientLimits,
    control: Option<&Bytes>,
    grace: u64,
) -> Result<Room, OpenRoomError>
    ensures limits { IfOk result (λ room. room.limits ≡ limits) }
    ensures control { IfOk result (λ room. is_some room.control ≡ is_some control.entry) }
    ensures grace { IfOk result (λ room. IfSome room.control (λ c. c.grace ≡ grace)) }
{
    let control = match control {
        Some(path) => Some(control_at(rt, path, grace)?),
        None => None,
    };
    let listener = match listen(rt, address) {
        Ok(listener) => listener,
        Err(error) => return Err(OpenRoomError::Listen(error)),
    };
    room_with(rt, alloc, listener, limits, control)
}

fn control_at<R: Net + Files>(rt: &R, path: &Bytes, grace: u64) -> Result<Control, OpenRoomError>
    ensures { IfOk result (λ c. c.grace ≡ grace) }
{
    match bind_control(rt, path) {
        Ok(listener) => Ok(Control { listener, grace }),
        Err(error) => Err(OpenRoomError::Control(error)),
    }
}

fn text_of(bytes: &Bytes) -> io::Result<&str> {
    match str::from_utf8(bytes.as_slice()) {
        Ok(text) => Ok(text),
        Err(_) => Err(ErrorKind::InvalidInput.into()),
    }
}

// A socket that a front left which is gone is taken away first.
fn bind_control<R: Net + Files>(rt: &R, path: &Bytes) -> io::Result<UnixListener> {
    let path = text_of(path)?;
    let listener = match UnixListener::bind(rt, path) {
        Err(error) if error.kind() == ErrorKind::AddrInUse && is_left(rt, path) => {
            fs::remove_file(rt, path)?;
            UnixListener::bind(rt, path)?
        }
        answer => answer?,
    };
    listener.set_nonblocking(true)?;
    Ok(listener)
}

// Whether it is a socket at which nobody waits.
fn is_left<R: Net + Files>(rt: &R, path: &str) -> bool {
    match UnixStream::connect(rt, path) {
        Ok(_) => false,
        Err(error) => error.kind() == ErrorKind::ConnectionRefused && is_socket(rt, path),
    }
}

// The system refuses a connection to a file of another kind too.
fn is_socket<R: Files>(rt: &R, path: &str) -> bool {
    match fs::metadata(rt, path) {
        Ok(known) => known.file_type().is_socket(),
        Err(_) => false,
    }
}

// A socket that accepts clients and doesn't wait.
fn listen<R: Net>(rt: &R, address: &Bytes) -> io::Result<TcpListener> {
    let mut last = ErrorKind::NotFound.into();
    for address in text_of(address)?.to_socket_addrs(rt)? {
        match bound(rt, address) {
            Ok(listener) => return Ok(listener),
            Err(error) => last = error,
        }
    }
    Err(last)
}

fn bound<R: Net>(rt: &R, address: SocketAddr) -> io::Result<TcpListener> {
    Ok(TcpListener::from(mio::net::TcpListener::bind(rt, address)?))
}

fn room_with<R: Net>(
    rt: &R,
    alloc: Global,
    listener: TcpListener,
    limits: ClientLimits,
    control: Option<Control>,
) -> Result<Room, OpenRoomError>
    ensures limits { IfOk result (λ room. room.limits ≡ limits) }
    ensures control { IfOk result (λ room. room.control ≡ control) }
{
    let events = match Events::with_capacity(alloc, MOST_EVENTS) {
        Ok(events) => events,
        Err(_) => return Err(OpenRoomError::NoMemory),
    };
    let ending = Ending::new(alloc)?;
    let leisure = Leisure::new(alloc)?;
    let (poll, registry) = match polled(rt, &listener, control.as_ref()) {
        Ok(made) => made,
        Err(error) => return Err(OpenRoomError::Listen(error)),
    };
    Ok(Room {
        alloc,
        registry,
        listener,
        control,
        limits,
        ending,
        leisure,
        lead: Mutex::new(Lead {
            poll,
            events,
            swept: moment(),
            paused: 0,
            told: None,
            is_owed: true,
        }),
        table: Mutex::new(Table::new(alloc)),
        replies: AtomicU64::new(0),
        askers: Mutex::new(Askers {
            streams: Vec::new(alloc),
        }),
        unwatched: Mutex::new(Tally::new()),
    })
}

// What waits for the system's word on the listener and on the control socket.
fn polled<R: Net>(
    rt: &R,
    listener: &TcpListener,
    control: Option<&Control>,
) -> io::Result<(Poll, Registry)> {
    let poll = Poll::new(rt)?;
    let registry = poll.registry().try_clone()?;
    registry.register(
        &mut SourceFd(&listener.as_raw_fd()),
        Token(LISTENER),
        Interest::READABLE,
    )?;
    if let Some(control) = control {
        registry.register(
            &mut SourceFd(&control.listener.as_raw_fd()),
            Token(CONTROL),
            Interest::READABLE,
        )?;
    }
    Ok((poll, registry))
}
