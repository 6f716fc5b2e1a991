//! A TCP stream, and how long it is waited for.
ghost use Rattle.std.specs.Prelude.{◌≡◌, ◌<◌, ◌≤◌, IfOk, IfSome, None, Some, false, length, true};
ghost use Rattle.std.specs.Net.Tcp.{stream_raw_fd};
ghost use Rattle.real_io.specs.Patiences.{HearsOf, IsSpent, body_patience, head_patience};
ghost use Rattle.real_io.specs.Waitless.{IfCame, IsWaitless};

use crate::ending::Ending;
use crate::leisure::LOOK_MILLIS;
use crate::moments::moment;
use crate::notices::{Failure, Watched};
use crate::pace::Pace;
use jk_io::{Awaited, ClientLimits, NoMemory};
use libc::net as c;
use std::alloc::Global;
use std::io;
use std::io::{ErrorKind, Read, Write};
use std::net::{IpAddr, Shutdown, TcpStream};
use std::os::fd::{AsRawFd, RawFd};
use std::time::Duration;

/// The milliseconds after which a call of the system comes back at the latest, where a limit is to be seen.
pub(crate) const SLICE_MILLIS: u64 = 250;

/// How long a read waits.
#[derive(Clone, Copy)]
enum Patience {
    /// So many milliseconds at most; 0 is without limit.
    Each(u64),
    /// As long as bytes come at this pace.
    Paced(Pace),
    /// Until this moment.
    Until(u64),
}

/// How long a look at a client waits for its bytes.
#[derive(Clone, Copy)]
pub(crate) enum LookWait {
    /// Not at all.
    AtOnce,
    /// For `LOOK_MILLIS` at most.
    Brief,
}

/// What a read that doesn't wait found.
#[derive(Clone, Copy, Debug, PartialEq, Eq)]
pub enum AtHand {
    /// So many bytes; 0 is the end.
    Came(usize),
    /// None yet.
    Nothing,
    /// The stream is broken.
    Broken,
}

// Whether a call of the system came back before something came.
fn comes_back(error: &io::Error) -> bool {
    matches!(
        error.kind(),
        ErrorKind::Interrupted | ErrorKind::WouldBlock | ErrorKind::TimedOut
    )
}

// Whether bytes may be the first of a container's packet, which begins with "AB".
fn begins_packet(given: &[u8]) -> bool {
    given.first() == Some(&b'A')
}

/// How an end of a stream is waited for, and whose it is.
#[derive(Drop)]
pub(crate) struct Waits {
    patience: Patience,
    /// After how many milliseconds a call of the system comes back; 0: it may wait without limit.
    slice: u64,
    /// What a client may take, of a client's end.
    limits: Option<ClientLimits>,
    /// Who is at the other end, of a client's end.
    peer: Option<IpAddr>,
    /// How a client takes its reply, since it last took none.
    taking: Option<Pace>,
    /// When all ends at the latest, where that is told.
    ending: Option<Ending>,
    /// The member at the other end, where it is said that it fails.
    watched: Option<Watched>,
}

impl Waits {
    /// They are without limit, until it is told otherwise.
    pub(crate) fn new(alloc: Global) -> Result<Box<Waits>, NoMemory> {
        let waits = Waits {
            patience: Patience::Each(0),
            slice: 0,
            limits: None,
            peer: None,
            taking: None,
            ending: None,
            watched: None,
        };
        Ok(Box::new(alloc, waits)?)
    }
}

/// A TCP stream, and how it is waited for.
#[derive(Drop)]
pub(crate) struct WaitedStream {
    stream: TcpStream,
    /// It stays where it is while the end goes from hand to hand.
    waits: Box<Waits>,
    /// The other side's bytes ended.
    has_ended: bool,
    /// The other side gave bytes, or ended.
    was_heard: bool,
}

impl WaitedStream {
    /// A stream that is waited for without limit, until it is told otherwise. Small writes are sent without delay. For want of
    /// memory it is closed.
    pub(crate) fn new(alloc: Global, stream: TcpStream) -> Result<WaitedStream, NoMemory> {
        Ok(WaitedStream::over(stream, Waits::new(alloc)?))
    }

    // The same. It takes no memory.
    fn over(stream: TcpStream, waits: Box<Waits>) -> WaitedStream {
        // A stream that refuses this is broken, and the next read or write of it fails.
        let _ = stream.set_nodelay(true);
        WaitedStream {
            stream,
            waits,
            has_ended: false,
            was_heard: false,
        }
    }

    /// A stream of which each read and each write waits so many milliseconds at most. It takes no memory.
    pub(crate) fn patient(stream: TcpStream, millis: u64, waits: Box<Waits>) -> WaitedStream
        ensures { result.waits.value.patience ≡ Patience.Each millis }
    {
        let mut waited = WaitedStream::over(stream, waits);
        waited.come_back_after(millis);
        waited.waits.patience = Patience::Each(millis);
        waited
    }

    /// A client's stream, which keeps to these limits. For want of memory it is closed.
    pub(crate) fn of_client(
        alloc: Global,
        stream: TcpStream,
        peer: IpAddr,
        limits: ClientLimits,
        ending: Ending,
    ) -> Result<WaitedStream, NoMemory>
        ensures { IfOk result (λ waited. waited.waits.value.peer ≡ Some peer) }
    {
        let mut waited = WaitedStream::new(alloc, stream)?;
        waited.come_back_after(SLICE_MILLIS);
        waited.waits.limits = Some(limits);
        waited.waits.peer = Some(peer);
        waited.waits.ending = Some(ending);
        Ok(waited)
    }

    /// Who is at the other end, where it is a client.
    pub(crate) fn peer(&self) -> Option<IpAddr>
        ensures { result ≡ self.now.waits.value.peer }
    {
        self.waits.peer
    }

    /// A member's stream, which fails once all ends. Where it is watched, it is said that it fails. For want of memory it is
    /// closed.
    pub(crate) fn of_member(
        alloc: Global,
        stream: TcpStream,
        ending: Option<Ending>,
        watched: Option<Watched>,
    ) -> Result<WaitedStream, NoMemory> {
        let mut waited = WaitedStream::new(alloc, stream)?;
        if ending.is_some() {
            waited.come_back_after(SLICE_MILLIS);
        }
        waited.waits.ending = ending;
        waited.waits.watched = watched;
        Ok(waited)
    }

    // Says that the member at the other end fails, unless all ends.
    fn tell(&self, failure: Failure<'_>) {
        if let Some(watched) = &self.waits.watched
            && !self.is_all_over()
        {
            watched.fails(failure);
        }
    }

    // Has a call of the system come back after so many milliseconds. A stream that refuses this is broken.
    fn come_back_after(&mut self, millis: u64)
        ensures asked { 0 < millis → self.new.waits.value.slice ≡ millis }
        ensures unasked { millis ≡ 0 → self.new.waits.value.slice ≡ self.old.waits.value.slice }
        ensures same { self.new.waits.value ≡ record self.old.waits.value { slice = self.new.waits.value.slice } }
        ensures ended { self.new.has_ended ≡ self.old.has_ended }
    {
        if self.waits.slice != millis && millis != 0 {
            let wait = Some(Duration::from_millis(millis));
            let _ = self.stream.set_read_timeout(wait);
            let _ = self.stream.set_write_timeout(wait);
            self.waits.slice = millis;
        }
    }

    /// The system's number of the stream.
    pub(crate) fn number(&self) -> RawFd
        ensures { result ≡ stream_raw_fd self.now.stream }
    {
        self.stream.as_raw_fd()
    }

    /// Whether the other side's bytes ended, as far as a read saw it.
    pub(crate) fn has_ended(&self) -> bool
        ensures { result ≡ self.now.has_ended }
    {
        self.has_ended
    }

    /// Ends what this side sends.
    pub(crate) fn shut(&self) {
        let _ = self.stream.shutdown(Shutdown::Write);
    }

    /// Is told what is waited for next.
    pub(crate) fn await_next(&mut self, what: Awaited)
        ensures { HearsOf self.old.waits.value what self.new.waits.value }
    {
        match what {
            Awaited::Pong { millis } | Awaited::Reply { millis } => self.wait_each(millis),
            Awaited::Body => self.begin_body(moment()),
            Awaited::Client => self.begin_head(moment()),
            Awaited::Link { .. } => {}
        }
    }

    // From now on each read and each write waits so many milliseconds at most.
    fn wait_each(&mut self, millis: u64)
        ensures patience { self.new.waits.value.patience ≡ Patience.Each millis }
        ensures comes_back { 0 < millis → 0 < self.new.waits.value.slice }
        ensures same { self.new.waits.value.limits ≡ self.old.waits.value.limits }
    {
        if millis != 0 && self.waits.slice == 0 {
            self.come_back_after(SLICE_MILLIS);
        }
        self.waits.patience = Patience::Each(millis);
    }

    // A client's body is to come at its pace, from this moment on.
    fn begin_body(&mut self, now: u64)
        ensures { let patience = body_patience self.old.waits.value.limits now self.old.waits.value.patience in
            self.new.waits.value ≡ record self.old.waits.value { patience = patience } }
    {
        if let Some(limits) = self.waits.limits {
            self.waits.patience = Patience::Paced(Pace::new(limits.rate, now));
        }
    }

    // A client's whole head is to come in time.
    fn begin_head(&mut self, now: u64)
        ensures { let patience = head_patience self.old.waits.value.limits now self.old.waits.value.patience in
            self.new.waits.value ≡ record self.old.waits.value { patience = patience } }
    {
        match self.waits.limits {
            Some(limits) if limits.head != 0 => {
                let millis = limits.head.saturating_mul(1_000);
                self.waits.patience = Patience::Until(now.saturating_add(millis));
            }
            Some(_) => self.waits.patience = Patience::Each(0),
            None => {}
        }
    }

    // Whether a read that waited so many milliseconds waits no longer.
    fn is_over(&self, waited: u64) -> bool
        ensures spent { IsSpent self.now.waits.value.patience waited → result ≡ true }
        ensures endless { self.now.waits.value.patience ≡ Patience.Each 0 → self.now.waits.value.ending ≡ None → result ≡ false }
    {
        let over = match self.waits.patience {
            Patience::Each(most) => most != 0 && waited >= most,
            Patience::Paced(pace) => pace.is_lost(moment()),
            Patience::Until(last) => moment() >= last,
        };
        over || self.is_all_over()
    }

    // Whether a write that waited so many milliseconds waits no longer. Once all ends a client still gets what needn't wait, as the
    // answer that says so; a member gets nothing.
    fn is_stuck(&self, waited: u64) -> bool {
        let stuck = match (self.waits.taking, self.waits.patience) {
            (Some(pace), _) => pace.is_lost(moment()),
            (None, Patience::Each(most)) => most != 0 && waited >= most,
            (None, _) => false,
        };
        let may_try = waited == 0 && self.waits.limits.is_some();
        stuck || (self.is_all_over() && !may_try)
    }

    fn is_all_over(&self) -> bool
        ensures { self.now.waits.value.ending ≡ None → result ≡ false }
    {
        match &self.waits.ending {
            Some(ending) => ending.is_over(),
            None => false,
        }
    }

    /// Reads, and waits for bytes as long as it may.
    pub(crate) fn receive(&mut self, buf: &mut [u8]) -> Option<usize>
        ensures count { IfSome result (λ n. n ≤ length buf.new) }
    {
        let n = self.next_bytes(buf)?;
        self.note_given(&buf[..n]);
        Some(n)
    }

    // Where bytes are to come at a pace or by a moment, those that are there are taken first.
    fn next_bytes(&mut self, buf: &mut [u8]) -> Option<usize>
        ensures count { IfSome result (λ n. n ≤ length buf.new) }
    {
        if !matches!(self.waits.patience, Patience::Each(_)) {
            match self.at_hand(buf) {
                AtHand::Came(n) => return Some(n),
                AtHand::Nothing => {}
                AtHand::Broken => return None,
            }
        }
        self.wait_for_bytes(buf)
    }

    fn wait_for_bytes(&mut self, buf: &mut [u8]) -> Option<usize>
        ensures count { IfSome result (λ n. n ≤ length buf.new) }
    {
        let mut waited = 0;
        for _ in 0..u64::MAX {
            if self.is_over(waited) {
                self.tell(Failure::Silent);
                return None;
            }
            match self.stream.read(buf) {
                Ok(n) => return Some(n),
                Err(error) => waited = self.waited(&error, waited)?,
            }
        }
        None
    }

    // How long a call has waited after this error of the system; none: it is broken. A client that isn't quick is waited for by
    // longer calls.
    fn waited(&mut self, error: &io::Error, waited: u64) -> Option<u64> {
        match error.kind() {
            ErrorKind::Interrupted => Some(waited),
            ErrorKind::WouldBlock | ErrorKind::TimedOut => {
                let waited = waited.saturating_add(self.waits.slice);
                if self.waits.limits.is_some() {
                    self.come_back_after(SLICE_MILLIS);
                }
                Some(waited)
            }
            _ => {
                self.tell(Failure::Broken(error));
                None
            }
        }
    }

    fn note_given(&mut self, given: &[u8]) {
        self.has_ended = given.is_empty();
        self.tell_given(given);
        self.was_heard = true;
        if let Patience::Paced(pace) = self.waits.patience {
            self.waits.patience = Patience::Paced(pace.after(given.len() as u64, moment()));
        }
    }

    // Says what the bytes that a member gave say of it: that it closed, that it serves, or that it speaks something else.
    fn tell_given(&self, given: &[u8]) {
        match &self.waits.watched {
            Some(_) if given.is_empty() => self.tell(Failure::Closed),
            Some(_) if !self.was_heard && !begins_packet(given) => self.tell(Failure::Strange),
            Some(watched) => watched.serves(),
            None => {}
        }
    }

    /// Reads what is there, without waiting.
    pub(crate) fn at_hand(&mut self, buf: &mut [u8]) -> AtHand
        ensures count { IfCame result (λ n. n ≤ length buf.new) }
    {
        let came = receive_now(self.number(), buf, c::MSG_DONTWAIT);
        if came == AtHand::Came(0) {
            self.has_ended = true;
        }
        came
    }

    /// Reads what is there, or comes within `LOOK_MILLIS`.
    pub(crate) fn soon(&mut self, buf: &mut [u8]) -> AtHand
        ensures count { IfCame result (λ n. n ≤ length buf.new) }
    {
        self.come_back_after(LOOK_MILLIS);
        match self.stream.read(buf) {
            Ok(n) => {
                self.has_ended = n == 0;
                AtHand::Came(n)
            }
            Err(error) if comes_back(&error) => AtHand::Nothing,
            Err(_) => AtHand::Broken,
        }
    }

    /// Whether no byte is there and the other side didn't close, as far as can be seen now.
    pub(crate) fn is_quiet(&self) -> bool {
        peek(self.number()) == AtHand::Nothing
    }

    /// One write, and how many bytes it took.
    pub(crate) fn send(&mut self, piece: &[u8]) -> Option<usize>
        requires { 0 < length piece.now }
        ensures count { IfSome result (λ n. (0 < n) × (n ≤ length piece.now)) }
    {
        let mut waited = 0;
        for _ in 0..u64::MAX {
            if self.is_stuck(waited) {
                self.tell(Failure::Silent);
                return None;
            }
            match self.stream.write(piece) {
                Ok(0) => return None,
                Ok(n) => {
                    self.note_taken(n, n == piece.len());
                    return Some(n);
                }
                Err(error) => {
                    waited = self.waited(&error, waited)?;
                    self.note_stuck();
                }
            }
        }
        None
    }

    // A client that takes a piece whole isn't slow. Else its pace is looked at, from now on if it wasn't yet.
    fn note_taken(&mut self, count: usize, is_whole: bool) {
        if is_whole {
            self.waits.taking = None;
            return;
        }
        match self.waits.taking {
            Some(pace) => self.waits.taking = Some(pace.after(count as u64, moment())),
            None => self.note_stuck(),
        }
    }

    // A client took none, or not all.
    fn note_stuck(&mut self) {
        if let (Some(limits), None) = (self.waits.limits, self.waits.taking) {
            self.waits.taking = Some(Pace::new(limits.rate, moment()));
        }
    }
}

// One read that doesn't wait; a signal in its midst is no failure.
fn receive_now(number: RawFd, buf: &mut [u8], flags: i32) -> AtHand
    requires { IsWaitless flags }
    ensures { IfCame result (λ n. n ≤ length buf.new) }
{
    for _ in 0..u64::MAX {
        let came = unsafe { c::recv(number, buf, flags) };
        if came >= 0 {
            return AtHand::Came(came as usize);
        }
        match os::errno() {
            libc::EINTR => {}
            libc::EAGAIN => return AtHand::Nothing,
            _ => return AtHand::Broken,
        }
    }
    AtHand::Broken
}

// Looks at the next byte, and leaves it.
fn peek(number: RawFd) -> AtHand {
    receive_now(number, &mut [0u8; 1], c::MSG_DONTWAIT | c::MSG_PEEK)
}
