//! A link over a TCP stream.
ghost use Rattle.std.specs.Prelude.{◌≡◌, ◌≢◌, ◌+◌, ◌-◌, ◌<◌, ◌≤◌, ◌⊎◌, ℕ, IfOk, IfSome, IsOk, false, length, take, drop, true, vec_len};
ghost use Rattle.jk_io.specs.Told.{HasCause};
ghost use Rattle.std.specs.List.{between};
ghost use Rattle.real_io.specs.Heads.{EndsHead, IsShortHead, LacksHead};
ghost use Rattle.real_io.specs.Looks.{IsBrief};
ghost use Rattle.real_io.specs.Patiences.{WireHears};
ghost use Rattle.real_io.specs.Unflushed.{unflushed_with, replies_after};
ghost use Rattle.real_io.specs.Waitless.{IfCame};

use crate::failed_calls::FailedCalls;
use crate::heads::{MAX_HEAD_BYTES, head_end};
use crate::leisure::{LOOK_MILLIS, Leisure, MOST_LOOK_MILLIS};
use crate::outbox::Outbox;
use crate::stream_end::StreamEnd;
use crate::unflushed::Unflushed;
use crate::waited_stream::{AtHand, LookWait};
use jk_io::{Awaited, IoError, Link, Meanings, NoMemory, Sink, Source};
use std::alloc::Global;
use std::net::TcpStream;
use std::sync::{Arc, Mutex};

/// How many bytes a link reads ahead at most.
pub const AHEAD_BYTES: usize = 73_728;

/// What a link reads from and writes to.
#[derive(Drop)]
enum Wire {
    /// A stream, to which it writes at once.
    End(StreamEnd),
    /// A client's stream, for which an outbox holds back what is written until its worker waits.
    Outbox(Outbox),
}

/// A TCP stream that reads ahead. It writes at once, unless it is a client's with an outbox. It tells nothing of what is read
/// and written.
#[derive(Drop)]
pub struct TcpLink {
    wire: Wire,
    /// The outbox that is emptied before a member's link waits or writes: that of the worker that it serves.
    first: Option<Arc<Mutex<Outbox>>>,
    /// What was read ahead lies from `from` to `to`.
    ahead: Vec<u8>,
    from: usize,
    to: usize,
    /// A client's head is waited for: no byte after it is given with it.
    is_head: bool,
    /// It said that it waits, and nothing was read or written since.
    is_idle: bool,
    /// A number by which a door knows it again.
    seat: u64,
    /// What was written since the last flush.
    unflushed: Unflushed,
    /// How often a final reply went out whole.
    replies: u64,
    /// Whether workers are free, of a client's link that may then look at its client for a moment.
    leisure: Option<Leisure>,
    /// For how many milliseconds it waited for its client at most, to say whether it waits.
    looked: u64,
    /// Nothing came of its client in the last look.
    is_slow: bool,
    /// Its door goes on hearing of what comes of its client.
    is_heard: bool,
    failed: FailedCalls,
    ghost within: { (from ≤ to) × (to ≤ vec_len ahead) },
}

/// What a link is made of, once it isn't used any more.
#[derive(Drop)]
pub struct LinkParts {
    /// The stream's end; none where it is broken.
    pub end: Option<StreamEnd>,
    /// What was read ahead and wasn't given lies from `from` to `to`.
    pub ahead: Vec<u8>,
    pub from: usize,
    pub to: usize,
    /// It said that it waits, and nothing was read or written since.
    pub is_idle: bool,
    pub seat: u64,
    /// How often a final reply went out whole.
    pub replies: u64,
    /// Nothing came of its client in the last look.
    pub is_slow: bool,
    /// Its door goes on hearing of what comes of its client.
    pub is_heard: bool,
    ghost within: { (from ≤ to) × (to ≤ vec_len ahead) },
}

impl TcpLink {
    /// A link over a stream. Small writes are sent without delay.
    pub fn new(alloc: Global, stream: TcpStream) -> Result<TcpLink, NoMemory>
        ensures { IfOk result (λ link. (link.failed ≡ 0) × (link.from ≡ link.to)) }
    {
        let end = StreamEnd::new(alloc, stream)?;
        Ok(TcpLink::over(end, room_ahead(alloc)?))
    }

    /// A link to a member, before whose waits and writes this outbox is emptied.
    pub(crate) fn after(alloc: Global, end: StreamEnd, outbox: &Outbox) -> Result<TcpLink, NoMemory>
        ensures { IfOk result (λ link. (link.failed ≡ 0) × (link.from ≡ link.to)) }
    {
        let first = Arc::new(alloc, Mutex::new(outbox.share()?))?;
        let mut link = TcpLink::over(end, room_ahead(alloc)?);
        link.first = Some(first);
        Ok(link)
    }

    /// From now on this outbox is emptied first, if the link was made with one.
    pub(crate) fn serve(&self, outbox: &Outbox) {
        if let Some(first) = &self.first
            && let Some(mut first) = first.try_lock()
            && let Ok(outbox) = outbox.share()
        {
            *first = outbox;
        }
    }

    /// A link over the end of a stream, which reads ahead into this buffer. It takes no memory.
    pub(crate) fn over(end: StreamEnd, ahead: Vec<u8>) -> TcpLink
        ensures { (result.failed ≡ 0) × (result.from ≡ result.to) }
    {
        TcpLink::on(Wire::End(end), ahead)
    }

    /// A client's link over an outbox that takes this end, or over the end itself if the outbox has another one. It
    /// takes no memory.
    pub(crate) fn held_by(outbox: Outbox, end: StreamEnd, ahead: Vec<u8>) -> TcpLink
        ensures fresh { (result.failed ≡ 0) × (result.is_idle ≡ false) }
        ensures ahead { (result.from ≡ 0) × (result.to ≡ 0) × (result.ahead ≡ ahead) }
    {
        match outbox.open(end) {
            None => TcpLink::on(Wire::Outbox(outbox), ahead),
            Some(end) => TcpLink::on(Wire::End(end), ahead),
        }
    }

    /// A client's link, of which these bytes were read ahead: the first `count` of the buffer. A door knows it by its
    /// seat. It takes no memory.
    pub fn of_client(
        outbox: Outbox,
        end: StreamEnd,
        ahead: Vec<u8>,
        count: usize,
        seat: u64,
    ) -> TcpLink
        requires { count ≤ vec_len ahead }
        ensures fresh { (result.failed ≡ 0) × (result.is_idle ≡ false) × (result.seat ≡ seat) }
        ensures ahead { (result.from ≡ 0) × (result.to ≡ count) × (result.ahead ≡ ahead) }
    {
        let mut link = TcpLink::held_by(outbox, end, ahead);
        link.from = 0;
        link.to = count;
        link.seat = seat;
        link
    }

    fn on(wire: Wire, ahead: Vec<u8>) -> TcpLink
        ensures fresh { (result.failed ≡ 0) × (result.is_idle ≡ false) }
        ensures ahead { (result.from ≡ 0) × (result.to ≡ 0) × (result.ahead ≡ ahead) }
    {
        TcpLink {
            wire,
            first: None,
            ahead,
            from: 0,
            to: 0,
            is_head: false,
            is_idle: false,
            seat: 0,
            unflushed: Unflushed::Nothing,
            replies: 0,
            leisure: None,
            looked: 0,
            is_slow: false,
            is_heard: false,
            failed: FailedCalls::none(),
        }
    }

    /// Its door goes on hearing of what comes of its client, and needn't be told again.
    pub fn leave_to_door(&mut self)
        ensures { self.new ≡ record self.old { is_heard = true } }
    {
        self.is_heard = true;
    }

    /// Where it is told whether workers are free, it may look at its client for a moment before it says that it waits.
    pub fn look_while(&mut self, leisure: Option<Leisure>)
        ensures { self.new ≡ record self.old { leisure = leisure } }
    {
        self.leisure = leisure;
    }

    /// Sends what its outbox held back, and gives what it is made of.
    pub fn into_parts(self) -> LinkParts
        ensures ahead { (result.ahead ≡ self.ahead) × (result.from ≡ self.from) × (result.to ≡ self.to) }
        ensures same { (result.is_idle ≡ self.is_idle) × (result.seat ≡ self.seat) × (result.replies ≡ self.replies) }
        ensures looks { (result.is_slow ≡ self.is_slow) × (result.is_heard ≡ self.is_heard) }
    {
        let TcpLink {
            wire,
            first: _,
            ahead,
            from,
            to,
            is_head: _,
            is_idle,
            seat,
            unflushed: _,
            replies,
            leisure: _,
            looked: _,
            is_slow,
            is_heard,
            failed: _,
        } = self;
        let end = end_of(wire);
        LinkParts {
            end,
            ahead,
            from,
            to,
            is_idle,
            seat,
            replies,
            is_slow,
            is_heard,
        }
    }

    // Gives the next of the bytes that were read ahead.
    fn give_ahead(&mut self, buf: &mut [u8]) -> usize
        ensures count { result ≤ length buf.new }
        ensures some { 0 < length buf.old → self.old.from ≢ self.old.to → 0 < result }
        ensures gave { take result buf.new ≡ take result (drop self.old.from self.old.ahead.items) }
        ensures on { self.new.from ≡ self.old.from + result }
        ensures same { (self.new.to ≡ self.old.to) × (self.new.ahead ≡ self.old.ahead) × (self.new.failed ≡ self.old.failed) }
    {
        let n = buf.len().min(self.to_give());
        buf[..n].copy_from_slice(&self.ahead[self.from..self.from + n]);
        self.from += n;
        n
    }

    // How many of the bytes that were read ahead are given at once: where a client's head is waited for, no more than its own.
    fn to_give(&self) -> usize
        ensures within { self.now.from + result ≤ self.now.to }
        ensures some { self.now.from ≢ self.now.to → 0 < result }
    {
        if self.is_head
            && let Some(n) = head_end(&self.ahead[self.from..self.to])
        {
            return n;
        }
        self.to - self.from
    }

    // Moves what was read ahead to the front of its room.
    fn gather(&mut self)
        ensures at_front { (self.new.from ≡ 0) × (self.new.to ≡ self.old.to - self.old.from) }
        ensures kept { between 0 self.new.to self.new.ahead.items ≡ between self.old.from self.old.to self.old.ahead.items }
        ensures same { (self.new.failed ≡ self.old.failed) × (self.new.looked ≡ self.old.looked) × (vec_len self.new.ahead ≡ vec_len self.old.ahead) }
        ensures leisure { self.new.leisure ≡ self.old.leisure }
    {
        let held = self.to - self.from;
        if self.from != 0 {
            self.ahead.copy_within(self.from..self.to, 0);
        }
        self.from = 0;
        self.to = held;
    }

    // Whether no whole head was read ahead, and fewer bytes than a head may have.
    fn lacks_head(&self) -> bool
        ensures lacks { result ≡ true → LacksHead self.now.from self.now.to self.now.ahead.items }
        ensures whole { result ≡ false → IsShortHead (self.now.to - self.now.from)
            → (n : ℕ) × EndsHead (between self.now.from self.now.to self.now.ahead.items) n }
    {
        if self.to - self.from >= MAX_HEAD_BYTES {
            return false;
        }
        match head_end(&self.ahead[self.from..self.to]) {
            Some(_) => false,
            None => true,
        }
    }

    // Whether more of a client's next head is waited for; what is at hand of it is read ahead.
    fn wants_more(&mut self) -> bool
        ensures lacks { result ≡ true → LacksHead self.new.from self.new.to self.new.ahead.items }
        ensures looked { IsBrief self.old.leisure self.old.looked self.new.looked }
        ensures same { self.new.failed ≡ self.old.failed }
    {
        if !self.lacks_head() {
            return false;
        }
        self.gather();
        match self.look() {
            AtHand::Came(0) | AtHand::Broken => return false,
            AtHand::Came(n) => self.to += n,
            AtHand::Nothing => {}
        }
        self.lacks_head()
    }

    // Reads what is there of its client; or, where nothing of it was read ahead and workers are free, what comes within 10 milliseconds.
    fn look(&mut self) -> AtHand
        ensures count { IfCame result (λ n. self.new.to + n ≤ vec_len self.new.ahead) }
        ensures looked { IsBrief self.old.leisure self.old.looked self.new.looked }
        ensures same { (self.new.from ≡ self.old.from) × (self.new.to ≡ self.old.to) × (self.new.failed ≡ self.old.failed) }
    {
        if self.from == self.to
            && self.looked <= MOST_LOOK_MILLIS - LOOK_MILLIS
            && let Some(leisure) = &self.leisure
            && leisure.is_there()
        {
            self.looked += LOOK_MILLIS;
            let came = self.wire.look(&mut self.ahead[self.to..], LookWait::Brief);
            self.is_slow = came == AtHand::Nothing;
            return came;
        }
        self.wire.look(&mut self.ahead[self.to..], LookWait::AtOnce)
    }

    // Empties the outbox whose bytes go first.
    fn let_first_go(&self) {
        if let Some(first) = &self.first
            && let Some(outbox) = first.try_lock()
        {
            outbox.flush();
        }
    }

    // Reads ahead, where nothing is ahead.
    fn read_ahead(&mut self) -> Result<(), IoError>
        ensures read { IsOk result → self.new.from ≡ 0 }
        ensures cause { HasCause self.old.failed self.new.failed result }
        ensures steady { IsOk result → self.new.failed ≡ self.old.failed }
    {
        self.from = 0;
        self.to = 0;
        match self.wire.receive(self.ahead.as_mut_slice()) {
            Some(n) => {
                self.to = n;
                Ok(())
            }
            None => Err(self.failed.fail()),
        }
    }
}

impl Wire {
    // One read.
    fn receive(&mut self, buf: &mut [u8]) -> Option<usize>
        ensures { IfSome result (λ n. n ≤ length buf.new) }
    {
        match self {
            Wire::End(end) => end.receive(buf).ok(),
            Wire::Outbox(outbox) => outbox.receive(buf),
        }
    }

    // One read that waits so long.
    fn look(&mut self, buf: &mut [u8], wait: LookWait) -> AtHand
        ensures { IfCame result (λ n. n ≤ length buf.new) }
    {
        match self {
            Wire::End(end) => end.look(buf, wait),
            Wire::Outbox(outbox) => outbox.look(buf, wait),
        }
    }

    // One write, and how many bytes it took.
    fn send(&mut self, piece: &[u8]) -> Option<usize>
        requires { 0 < length piece.now }
        ensures { IfSome result (λ n. (0 < n) × (n ≤ length piece.now)) }
    {
        match self {
            Wire::End(end) => end.write(piece).ok(),
            Wire::Outbox(outbox) => outbox.put(piece),
        }
    }

    // Sends what is held back, and tells whether nothing failed until now.
    fn flush(&mut self) -> bool {
        match self {
            Wire::End(_) => true,
            Wire::Outbox(outbox) => outbox.flush(),
        }
    }

    fn await_next(&mut self, what: Awaited)
        ensures { WireHears self.old what self.new }
    {
        match self {
            Wire::End(end) => end.await_next(what),
            Wire::Outbox(outbox) => outbox.await_next(what),
        }
    }
}

// The end of the stream, once what was held back was sent.
fn end_of(wire: Wire) -> Option<StreamEnd> {
    match wire {
        Wire::End(end) => Some(end),
        Wire::Outbox(outbox) => outbox.close(),
    }
}

/// The buffer of a link that reads ahead.
pub fn room_ahead(alloc: Global) -> Result<Vec<u8>, NoMemory>
    ensures { IfOk result (λ room. vec_len room ≡ AHEAD_BYTES) }
{
    Ok(vec![in alloc; 0u8; AHEAD_BYTES]?)
}

impl Meanings for TcpLink {
    ghost use Rattle.std.specs.Prelude.{None};

    type Beside = ();

    ghost incoming = { λ _. None };

    ghost received = { λ _. None };

    ghost sent = { λ _. None };

    ghost beside = { λ _. tt };

    ghost faults = { λ l. l.failed };
}

impl Source for TcpLink {
    fn read(&mut self, buf: &mut [u8]) -> Result<usize, IoError>
        requires { 0 < length buf.old }

        // What was read ahead is given first, from its front on, and each byte once.
        ensures given { IfOk result (λ n. self.old.from ≢ self.old.to → (self.new.from ≡ self.old.from + n)
            × (take n buf.new ≡ take n (drop self.old.from self.old.ahead.items))) }
        ensures rest { self.old.from ≢ self.old.to → (self.new.to ≡ self.old.to) × (self.new.ahead ≡ self.old.ahead) }
        ensures filled { IfOk result (λ n. self.old.from ≡ self.old.to → (self.new.from ≡ self.new.to)
            ⊎ ((self.new.from ≡ n) × (take n buf.new ≡ take n self.new.ahead.items))) }

        // Nothing fails while there are such bytes, and no end is told.
        ensures unfailing { self.old.from ≢ self.old.to → IsOk result }
        ensures endless { IfOk result (λ n. self.old.from ≢ self.old.to → 0 < n) }

        // What each source says.
        ensures count { IfOk result (λ n. n ≤ length buf.new) }
        ensures cause { HasCause self.old.failed self.new.failed result }
        ensures steady { IsOk result → self.new.failed ≡ self.old.failed }
    {
        self.is_idle = false;
        if self.from == self.to {
            self.let_first_go();
            if buf.len() >= AHEAD_BYTES {
                return match self.wire.receive(buf) {
                    Some(n) => Ok(n),
                    None => Err(self.failed.fail()),
                };
            }
            self.read_ahead()?;
        }
        Ok(self.give_ahead(buf))
    }
}

impl Sink for TcpLink {
    fn write(&mut self, piece: &[u8]) -> Result<usize, IoError>
        requires { 0 < length piece.now }

        // What was read ahead stays, and the first piece after a flush tells whether a final reply begins.
        ensures rest { (self.new.from ≡ self.old.from) × (self.new.to ≡ self.old.to) × (self.new.ahead ≡ self.old.ahead) }
        ensures begun { IsOk result → self.new.unflushed ≡ unflushed_with self.old.unflushed piece.now }
        ensures uncounted { self.new.replies ≡ self.old.replies }

        // What each sink says.
        ensures count { IfOk result (λ n. (0 < n) × (n ≤ length piece.now)) }
        ensures cause { HasCause self.old.failed self.new.failed result }
        ensures steady { IsOk result → self.new.failed ≡ self.old.failed }
    {
        self.is_idle = false;
        self.let_first_go();
        match self.wire.send(piece) {
            Some(n) => {
                self.unflushed = self.unflushed.with(piece);
                Ok(n)
            }
            None => Err(self.failed.fail()),
        }
    }

    fn flush(&mut self) -> Result<(), IoError>
        // What was read ahead stays, and a final reply that is whole now is counted.
        ensures rest { (self.new.from ≡ self.old.from) × (self.new.to ≡ self.old.to) × (self.new.ahead ≡ self.old.ahead) }
        ensures counted { IsOk result → self.new.replies ≡ replies_after self.old.unflushed self.old.replies }
        ensures anew { IsOk result → self.new.unflushed ≡ Unflushed.Nothing }

        // What each sink says.
        ensures cause { HasCause self.old.failed self.new.failed result }
        ensures steady { IsOk result → self.new.failed ≡ self.old.failed }
    {
        if self.wire.flush() {
            self.replies = self.unflushed.counted(self.replies);
            self.unflushed = Unflushed::Nothing;
            return Ok(());
        }
        Err(self.failed.fail())
    }
}

impl Link for TcpLink {
    ghost use Rattle.real_io.specs.Patiences.{WireHears};

    // nothing was read ahead
    ghost found_quiet = { λ before after. before.from ≡ before.to };

    // a link to a member waits by what it was told
    ghost heard = { λ before what after. WireHears before.wire what after.wire };

    fn waits(&mut self) -> bool
        // Where it waits, no whole head is there, nor as many bytes as a head may have.
        ensures lacks { result ≡ true → LacksHead self.new.from self.new.to self.new.ahead.items }
        ensures idle { result ≡ self.new.is_idle }

        // It waits for its client for 10 milliseconds at most, 256 times at most, and only where it is told whether workers are free.
        ensures looked { IsBrief self.old.leisure self.old.looked self.new.looked }

        // What each link says.
        ensures same { self.new.failed ≡ self.old.failed }
    {
        self.is_idle = self.wants_more();
        self.is_idle
    }

    fn await_next(&mut self, what: Awaited)
        // Its reads wait as it was told.
        ensures heard { WireHears self.old.wire what self.new.wire }

        // What was read ahead stays.
        ensures rest { (self.new.from ≡ self.old.from) × (self.new.to ≡ self.old.to) × (self.new.ahead ≡ self.old.ahead) }

        // What each link says.
        ensures same { self.new.failed ≡ self.old.failed }
    {
        self.is_head = what == Awaited::Client;
        self.wire.await_next(what);
    }

    fn is_quiet(&mut self) -> bool
        // A byte that was read ahead is one that is there.
        ensures ahead { self.old.from ≢ self.old.to → result ≡ false }
        ensures rest { (self.new.from ≡ self.old.from) × (self.new.to ≡ self.old.to) × (self.new.ahead ≡ self.old.ahead) }

        // What each link says.
        ensures found { result ≡ true → self.old.from ≡ self.old.to }
        ensures same { self.new.failed ≡ self.old.failed }
    {
        if self.from != self.to {
            return false;
        }
        match &self.wire {
            Wire::End(end) => end.is_quiet(),
            Wire::Outbox(_) => true,
        }
    }
}
