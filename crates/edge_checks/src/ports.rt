//! Ports of the loopback.
use check_rows::row::RowError;
use jk_io::{Bytes, Dial, IoError, NoMemory};
use outside_checks::listener;
use std::alloc::Global;
use std::fmt::Write;
use std::net::{Net, TcpListener, TcpStream};
use std::thread;
use std::time::{Clock, Duration};

/// The ports of fronts: so many from this one on. The system gives none of them to who dials, so nobody dials itself.
const FIRST_PORT: u16 = 10_000;

const PORTS: u16 = 20_000;

/// How often a port is looked for, and who doesn't listen yet is dialled; and the milliseconds between two dials.
const TRIES: u32 = 500;

const APART_MILLIS: u64 = 20;

/// A port at which nobody listens now.
pub fn free_port<R: Net<Listener = TcpListener, Stream = TcpStream>>(rt: &R) -> Option<u16> {
    for _ in 0..TRIES {
        let (_, port) = listener(rt).ok()?;
        let port = FIRST_PORT + port % PORTS;
        if TcpListener::bind(rt, ("127.0.0.1", port)).is_ok() {
            return Some(port);
        }
    }
    None
}

/// A port in decimal digits.
pub fn port_text(alloc: Global, port: u16) -> Result<String, NoMemory> {
    let mut text = String::new(alloc);
    write!(text, "{port}")?;
    Ok(text)
}

/// A link to who listens at a port now.
pub fn dialled<D: Dial>(alloc: Global, dial: &mut D, port: u16) -> Result<D::L, IoError> {
    let host = Bytes::from_slice(alloc, b"127.0.0.1")?;
    dial.dial(alloc, &host, port)
}

/// A link to who listens at a port, as soon as somebody does.
pub fn link_to<D: Dial, K: Clock>(
    clock: &K,
    alloc: Global,
    dial: &mut D,
    port: u16,
) -> Result<D::L, RowError> {
    for _ in 0..TRIES {
        match dialled(alloc, dial, port) {
            Ok(link) => return Ok(link),
            Err(IoError::Failed) => thread::sleep(clock, Duration::from_millis(APART_MILLIS)),
            Err(IoError::NoMemory) => return Err(RowError::NoMemory),
        }
    }
    Err(RowError::Unreadable)
}
