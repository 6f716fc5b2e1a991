//! Accepting TCP streams.
ghost use Rattle.std.specs.Prelude.{◌≡◌, ◌≢◌, ◌+◌, ◌-◌, ◌<◌, ◌↔◌, Some, IsTrue, IsOk, IfOk, OnErr, IfSome, IfNone};
ghost use Rattle.std.specs.Option.{option_map};
ghost use Rattle.jk_io.specs.Told.{HasCause};
ghost use Rattle.real_io.specs.declared.waited_stream.Patience.TheVariants as patience;

use crate::failed_calls::FailedCalls;
use crate::outbox::Outbox;
use crate::passing::{is_passing, pause};
use crate::stream_end::StreamEnd;
use crate::tcp_link::{TcpLink, room_ahead};
use crate::waited_stream::{WaitedStream, Waits};
use jk_io::{Bytes, Door, IoError, NoMemory, Peer};
use std::alloc::Global;
use std::net::{IpAddr, SocketAddr, TcpListener, TcpStream};

/// A client's link fails after this many seconds in which no byte came, or none was taken.
pub const CLIENT_SECONDS: u64 = 60;

/// How often an accept that fails for a passing reason is tried.
pub const MAX_ACCEPT_TRIES: u32 = 1_000;

/// The most bytes that the text of an address has.
const MAX_ADDRESS_BYTES: usize = 45;

/// Accepts TCP streams, at most `clients` if that is given. A read or a write on its links fails if it waits longer
/// than `CLIENT_SECONDS`.
#[derive(Drop)]
pub struct TcpDoor {
    listener: TcpListener,
    /// What holds back the bytes of a client, where something does.
    outbox: Option<Outbox>,
    clients: Option<u64>,
    /// How many links are out and may be left.
    out: u64,
    failed: FailedCalls,
}

impl TcpDoor {
    /// No link is out, and no call failed yet.
    pub fn new(listener: TcpListener, clients: Option<u64>) -> TcpDoor
        ensures { (result.clients ≡ clients) × (result.out ≡ 0) × (result.failed ≡ 0) }
    {
        TcpDoor {
            listener,
            outbox: None,
            clients,
            out: 0,
            failed: FailedCalls::none(),
        }
    }

    /// What is written to a client is held back in this outbox, until its link is read or left, or a link to a member
    /// that was dialled with the same outbox waits or writes. Of several clients at once only the first has it.
    pub fn with_outbox(listener: TcpListener, clients: Option<u64>, outbox: Outbox) -> TcpDoor
        ensures { (result.clients ≡ clients) × (result.out ≡ 0) × (result.failed ≡ 0) }
    {
        TcpDoor {
            listener,
            outbox: Some(outbox),
            clients,
            out: 0,
            failed: FailedCalls::none(),
        }
    }
}

impl Door for TcpDoor {
    ghost use Rattle.std.specs.Prelude.{None};

    type L = TcpLink;

    ghost coming = { λ _. None };

    ghost left = { λ _. None };

    ghost room = { λ d. d.out };

    ghost faults = { λ d. d.failed };

    fn accept(&mut self, alloc: Global) -> Result<Option<(TcpLink, Peer)>, IoError>
        // It is closed once it gave as many clients as it may, and not before.
        ensures closed { IfOk result (λ answer. IfNone answer ((self.old.clients ≡ Some 0) × (self.new.clients ≡ Some 0))) }
        ensures used_up { self.old.clients ≡ Some 0 → IsOk result }
        ensures one_fewer { IfOk result (λ answer. IfSome answer (λ _. (self.old.clients ≢ Some 0)
            × (self.new.clients ≡ option_map (λ n. n - 1) self.old.clients))) }
        ensures as_many { OnErr result (self.new.clients ≡ self.old.clients) }

        // What each door says.
        ensures one_more { IfOk result (λ answer. IfSome answer (λ _. self.new.out ≡ self.old.out + 1)) }
        ensures no_more { IfOk result (λ answer. IfNone answer (self.new.out ≡ self.old.out)) }
        ensures kept_on_error { OnErr result (self.new.out ≡ self.old.out) }
        ensures cause { HasCause self.old.failed self.new.failed result }
        ensures steady { IsOk result → self.new.failed ≡ self.old.failed }
    {
        if is_used_up(self.clients) {
            return Ok(None);
        }
        let Some(out) = self.out.checked_add(1) else {
            return Err(self.failed.fail());
        };
        match next_client(alloc, &self.listener, self.outbox.as_ref())? {
            Some(client) => {
                self.clients = one_fewer(self.clients);
                self.out = out;
                Ok(Some(client))
            }
            None => Err(self.failed.fail()),
        }
    }

    fn leave(&mut self, link: TcpLink)
        requires { 0 < self.old.out }

        // It gives no client more or fewer for this.
        ensures as_many { self.new.clients ≡ self.old.clients }

        // What each door says.
        ensures one_less { self.new.out + 1 ≡ self.old.out }
        ensures same { self.new.failed ≡ self.old.failed }
    {
        drop(link.into_parts());
        self.out -= 1;
    }
}

// Whether a door may give no client more, by how many it may.
fn is_used_up(clients: Option<u64>) -> bool
    ensures { IsTrue result ↔ (clients ≡ Some 0) }
{
    matches!(clients, Some(0))
}

// How many clients a door may give once it gave one.
fn one_fewer(clients: Option<u64>) -> Option<u64>
    ensures { result ≡ option_map (λ n. n - 1) clients }
{
    match clients {
        Some(n) => Some(n.saturating_sub(1)),
        None => None,
    }
}

// The next client, whose memory is taken first, so that want of it loses none.
fn next_client(
    alloc: Global,
    listener: &TcpListener,
    outbox: Option<&Outbox>,
) -> Result<Option<(TcpLink, Peer)>, NoMemory> {
    let room = ClientRoom::new(alloc, outbox)?;
    match accept_client(listener) {
        Some((stream, address)) => Ok(Some(room.client(stream, address.ip()))),
        None => Ok(None),
    }
}

// The memory of one client: its end and the buffer of its link, and the text of its address.
#[derive(Drop)]
struct ClientRoom {
    outbox: Option<Outbox>,
    waits: Box<Waits>,
    ahead: Vec<u8>,
    address: String,
}

impl ClientRoom {
    fn new(alloc: Global, outbox: Option<&Outbox>) -> Result<ClientRoom, NoMemory> {
        let outbox = match outbox {
            Some(outbox) => Some(outbox.share()?),
            None => None,
        };
        Ok(ClientRoom {
            outbox,
            waits: Waits::new(alloc)?,
            ahead: room_ahead(alloc)?,
            address: String::with_capacity(alloc, MAX_ADDRESS_BYTES)?,
        })
    }

    // The text has room for any address, so this one is written whole.
    fn client(self, stream: TcpStream, ip: IpAddr) -> (TcpLink, Peer) {
        let ClientRoom {
            outbox,
            waits,
            ahead,
            mut address,
        } = self;
        let _ = write!(address, "{ip}");
        let addr = Bytes::from_vec(address.into_bytes());
        let end = client_end(stream, waits);
        let link = match outbox {
            Some(outbox) => TcpLink::held_by(outbox, end, ahead),
            None => TcpLink::over(end, ahead),
        };
        (link, Peer { addr })
    }
}

// A client's end. A read or a write of it fails after a minute.
fn client_end(stream: TcpStream, waits: Box<Waits>) -> StreamEnd
    ensures { result.stream.waits.value.patience ≡ patience.Each 60000 }
{
    StreamEnd::over(WaitedStream::patient(stream, CLIENT_SECONDS * 1_000, waits))
}

// The next client; what fails for a passing reason is tried again after a while.
fn accept_client(listener: &TcpListener) -> Option<(TcpStream, SocketAddr)> {
    for _ in 0..MAX_ACCEPT_TRIES {
        match listener.accept() {
            Ok(client) => return Some(client),
            Err(error) if is_passing(&error) => pause(),
            Err(_) => return None,
        }
    }
    None
}
