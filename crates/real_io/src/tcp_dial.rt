//! Dialling members over TCP.
ghost use Rattle.std.specs.Prelude.{◌≡◌, ◌-◌, ◌*◌, ◌^◌, ◌<◌, ◌≤◌, IsSomeAnd, None};
ghost use Rattle.std.specs.Duration.{as_nanos};

use crate::ending::Ending;
use crate::failed_calls::FailedCalls;
use crate::member_address::MemberAddress;
use crate::moments::moment;
use crate::notices::{Failure, Notices, Watched};
use crate::outbox::Outbox;
use crate::passing::{is_wanting, pause};
use crate::stream_end::StreamEnd;
use crate::tcp_link::{TcpLink, room_ahead};
use crate::waited_stream::WaitedStream;
use jk_io::{Bytes, Dial, IoError, NoMemory};
use libc::net as c;
use std::alloc::Global;
use std::io;
use std::io::ErrorKind;
use std::net::{Net, SocketAddr, TcpStream, ToSocketAddrs};
use std::os::fd::AsRawFd;
use std::time::Duration;

/// The milliseconds that a dial waits for all addresses of a host together, unless it is told otherwise.
pub const DIAL_MILLIS: u64 = 10_000;

/// Dials members over TCP, by a host's name or address.
#[derive(Drop)]
pub struct TcpDial<'r, R: Net<Stream = TcpStream>> {
    rt: &'r R,
    /// The outbox that is emptied before a member is dialled, and before its link waits or writes.
    first: Option<Outbox>,
    /// How many milliseconds a dial waits at most; 0 is without limit.
    millis: u64,
    /// The system is to see whether the other end is still there.
    keepalive: bool,
    /// When all ends at the latest, where that is told.
    ending: Option<Ending>,
    /// Where it is said that a member fails.
    notices: Option<Notices>,
    failed: FailedCalls,
}

impl<'r, R: Net<Stream = TcpStream>> TcpDial<'r, R> {
    pub fn new(rt: &'r R) -> TcpDial<'r, R>
        ensures { (result.failed ≡ 0) × (result.millis ≡ 10000) }
    {
        TcpDial {
            rt,
            first: None,
            millis: DIAL_MILLIS,
            keepalive: false,
            ending: None,
            notices: None,
            failed: FailedCalls::none(),
        }
    }

    /// A dial that empties this outbox before it dials, as its links do before they wait or write. The door of the same
    /// worker has the same outbox.
    pub fn with_outbox(rt: &'r R, outbox: Outbox) -> TcpDial<'r, R>
        ensures { result.failed ≡ 0 }
    {
        let mut dial = TcpDial::new(rt);
        dial.first = Some(outbox);
        dial
    }

    /// As `with_outbox`; and its links fail once all ends, and it is said which members fail.
    pub fn of_front(rt: &'r R, outbox: Outbox, ending: Ending, notices: Notices) -> TcpDial<'r, R>
        ensures { result.failed ≡ 0 }
    {
        let mut dial = TcpDial::with_outbox(rt, outbox);
        dial.ending = Some(ending);
        dial.notices = Some(notices);
        dial
    }

    // Says of a member whether it was reached.
    fn tell(&self, address: &MemberAddress, answer: &io::Result<TcpStream>) {
        if let Some(notices) = &self.notices {
            match answer {
                Ok(_) => notices.is_there(address, false),
                Err(reason) => notices.fails(address, Failure::Unreached(reason)),
            }
        }
    }

    // The end of a stream to a member.
    fn end_of(
        &self,
        alloc: Global,
        stream: TcpStream,
        address: MemberAddress,
    ) -> Result<StreamEnd, NoMemory> {
        if self.keepalive {
            keep_alive(&stream);
        }
        let ending = match &self.ending {
            Some(ending) => Some(ending.share()?),
            None => None,
        };
        let watched = match &self.notices {
            Some(notices) => Some(Watched::new(notices, address)?),
            None => None,
        };
        Ok(StreamEnd::over(WaitedStream::of_member(alloc, stream, ending, watched)?))
    }

    fn link_over(&self, alloc: Global, end: StreamEnd) -> Result<TcpLink, NoMemory> {
        match &self.first {
            Some(outbox) => TcpLink::after(alloc, end, outbox),
            None => Ok(TcpLink::over(end, room_ahead(alloc)?)),
        }
    }
}

impl<'r, R: Net<Stream = TcpStream>> Dial for TcpDial<'r, R> {
    ghost use Rattle.std.specs.Prelude.{◌≡◌};

    type L = TcpLink;

    ghost faults = { λ d. d.failed };

    ghost heard = { λ _ millis keepalive after. (after.millis ≡ millis) × (after.keepalive ≡ keepalive) };

    fn dial(&mut self, alloc: Global, host: &Bytes, port: u16) -> Result<TcpLink, IoError> {
        if let Some(outbox) = &self.first {
            outbox.flush();
        }
        let address = MemberAddress::of(host, port)?;
        let answer = connect(self.rt, &address, self.millis);
        self.tell(&address, &answer);
        match answer {
            Ok(stream) => Ok(self.link_over(alloc, self.end_of(alloc, stream, address)?)?),
            Err(_) => Err(self.failed.fail()),
        }
    }

    fn await_dial(&mut self, millis: u64, keepalive: bool)
        ensures told { (self.new.millis ≡ millis) × (self.new.keepalive ≡ keepalive) }
        ensures same { self.new.failed ≡ self.old.failed }
    {
        self.millis = millis;
        self.keepalive = keepalive;
    }

    fn lend(&self, link: &TcpLink) {
        if let Some(outbox) = &self.first {
            link.serve(outbox);
        }
    }
}

// Has the system see whether the other end is still there. A stream that refuses this does without.
fn keep_alive(stream: &TcpStream) {
    let mut on = [0u8; 16];
    on[0] = 1;
    let _ = unsafe { c::setsockopt(stream.as_raw_fd(), c::SOL_SOCKET, c::SO_KEEPALIVE, &on, 4) };
}

// Tries each address of a host in turn, all within so many milliseconds. A name that isn't UTF-8 is that of no host.
fn connect<R: Net<Stream = TcpStream>>(
    rt: &R,
    address: &MemberAddress,
    millis: u64,
) -> io::Result<TcpStream> {
    let Ok(name) = str::from_utf8(address.host.as_slice()) else {
        return Err(ErrorKind::InvalidInput.into());
    };
    let begun = moment();
    let mut last = ErrorKind::NotFound.into();
    for address in (name, address.port).to_socket_addrs(rt)? {
        match connect_to(rt, &address, begun, millis) {
            Ok(stream) => return Ok(stream),
            Err(error) => last = error,
        }
    }
    Err(last)
}

// Connects to an address. Want of descriptors is waited for.
fn connect_to<R: Net<Stream = TcpStream>>(
    rt: &R,
    address: &SocketAddr,
    begun: u64,
    millis: u64,
) -> io::Result<TcpStream> {
    for _ in 0..u64::MAX {
        let Some(wait) = time_left(begun, millis, moment()) else {
            break;
        };
        match TcpStream::connect_timeout(rt, address, wait) {
            Err(error) if is_wanting(&error) => pause(),
            answer => return answer,
        }
    }
    Err(ErrorKind::TimedOut.into())
}

/// The longest wait for one address where a dial has no limit.
const LONG_SECONDS: u64 = 3_600;

// How long a dial may still wait for one address: an hour where it has no limit.
fn time_left(begun: u64, millis: u64, now: u64) -> Option<Duration>
    ensures unlimited { millis ≡ 0 → IsSomeAnd result (λ time. as_nanos time ≡ 3600 * 10 ^ 9) }
    ensures left { 0 < millis - (now - begun) → IsSomeAnd result (λ time. as_nanos time ≡ (millis - (now - begun)) * 10 ^ 6) }
    ensures none { 0 < millis → millis ≤ now - begun → result ≡ None }
{
    if millis == 0 {
        return Some(Duration::from_secs(LONG_SECONDS));
    }
    match left_of(begun, millis, now) {
        0 => None,
        left => Some(Duration::from_millis(left)),
    }
}

// The milliseconds that are left of those that began at a moment.
fn left_of(begun: u64, millis: u64, now: u64) -> u64
    ensures { result ≡ millis - (now - begun) }
{
    millis.saturating_sub(now.saturating_sub(begun))
}
