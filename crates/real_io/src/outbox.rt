//! The outbox of a worker: all that it wrote to its client and hasn't sent yet.
ghost use Rattle.std.specs.Prelude.{◌≡◌, ◌<◌, ◌≤◌, ◌++◌, [], IfNone, IfSome, IsSome, None, false, length, not, take, true};
ghost use Rattle.real_io.specs.Held.{HoldsRest};
ghost use Rattle.real_io.specs.Patiences.{EndHearsIf};
ghost use Rattle.real_io.specs.Waitless.{IfCame};

use crate::held_bytes::HeldBytes;
use crate::stream_end::StreamEnd;
use crate::waited_stream::{AtHand, LookWait};
use jk_io::{Awaited, NoMemory, Sink};
use std::alloc::Global;
use std::sync::{Arc, Mutex};

/// A client's end, with the bytes that wait to be sent on it.
#[derive(Drop)]
struct Held<E> {
    end: Option<E>,
    bytes: HeldBytes,
    /// A send failed, so what follows can't go out.
    is_broken: bool,
}

impl<E: Sink> Held<E> {
    // Sends what waits, and tells whether nothing failed until now. What couldn't go out stays held.
    fn flush(&mut self) -> bool
        ensures went { result ≡ true → self.new.bytes ≡ [] }
        ensures whole { HoldsRest E.sent self.old.end self.old.bytes self.new.end self.new.bytes }
        ensures told { result ≡ not self.new.is_broken }
        ensures stays { self.old.is_broken ≡ true → self.new ≡ self.old }
    {
        if self.is_broken || self.bytes.is_empty() {
            return !self.is_broken;
        }
        self.is_broken = !send_held(&mut self.end, &mut self.bytes);
        !self.is_broken
    }

    // Holds a front of a piece back, or sends it after what is held, and answers how many bytes it was. None: what is held stays.
    fn put(&mut self, piece: &[u8]) -> Option<usize>
        requires { 0 < length piece.now }
        ensures count { IfSome result (λ n. (0 < n) × (n ≤ length piece.now)) }
        ensures held { IfSome result (λ n. HoldsRest E.sent self.old.end (self.old.bytes ++ take n piece.now) self.new.end self.new.bytes) }
        ensures none { IfNone result (HoldsRest E.sent self.old.end self.old.bytes self.new.end self.new.bytes) }
        ensures stays { self.old.is_broken ≡ true → (result ≡ None) × (self.new ≡ self.old) }
    {
        if self.is_broken {
            return None;
        }
        let put = put_held(&mut self.end, &mut self.bytes, piece);
        self.is_broken = put.is_none();
        put
    }
}

// Sends what is held, and tells whether all went out.
fn send_held<E: Sink>(end: &mut Option<E>, bytes: &mut HeldBytes) -> bool
    ensures went { result ≡ true → bytes.new ≡ [] }
    ensures whole { HoldsRest E.sent end.old bytes.old end.new bytes.new }
{
    match end {
        Some(end) => bytes.flush(end).is_ok(),
        None => false,
    }
}

// Holds a front of a piece back, or sends it after what is held.
fn put_held<E: Sink>(end: &mut Option<E>, bytes: &mut HeldBytes, piece: &[u8]) -> Option<usize>
    requires { 0 < length piece.now }
    ensures count { IfSome result (λ n. (0 < n) × (n ≤ length piece.now)) }
    ensures held { IfSome result (λ n. HoldsRest E.sent end.old (bytes.old ++ take n piece.now) end.new bytes.new) }
    ensures none { IfNone result (HoldsRest E.sent end.old bytes.old end.new bytes.new) }
{
    match end {
        Some(end) => bytes.put(end, piece).ok(),
        None => None,
    }
}

impl Held<StreamEnd> {
    // Reads from the client, once all that waits was sent.
    fn receive(&mut self, buf: &mut [u8]) -> Option<usize>
        ensures count { IfSome result (λ n. n ≤ length buf.new) }
        ensures first { IsSome result → self.new.bytes ≡ [] }
    {
        if !self.flush() {
            return None;
        }
        self.end.as_mut()?.receive(buf).ok()
    }

    // Looks at what comes of the client, once all that waits was sent.
    fn look(&mut self, buf: &mut [u8], wait: LookWait) -> AtHand
        ensures count { IfCame result (λ n. n ≤ length buf.new) }
        ensures first { self.new.is_broken ≡ false → self.new.bytes ≡ [] }
    {
        if !self.flush() {
            return AtHand::Broken;
        }
        match &mut self.end {
            Some(end) => end.look(buf, wait),
            None => AtHand::Broken,
        }
    }

    // Tells the client's end what is waited for next.
    fn await_next(&mut self, what: Awaited)
        ensures heard { EndHearsIf self.old.end what self.new.end }
        ensures same { (self.new.bytes ≡ self.old.bytes) × (self.new.is_broken ≡ self.old.is_broken) }
    {
        if let Some(end) = &mut self.end {
            end.await_next(what);
        }
    }
}

/// What a worker wrote to its client and hasn't sent yet: at most 73,728 bytes. It is shared by the client's link and the
/// links to members of one worker, and sent before any of them waits or writes to a member. So the messages of a reply
/// that came together go to the client together, and none is held back while its successor is waited for.
#[derive(Drop)]
pub struct Outbox {
    held: Arc<Mutex<Held<StreamEnd>>>,
}

impl Outbox {
    /// An empty one, of no client yet. It takes all the memory that it needs.
    pub fn new(alloc: Global) -> Result<Outbox, NoMemory> {
        let held = Held {
            end: None,
            bytes: HeldBytes::new(alloc)?,
            is_broken: false,
        };
        Ok(Outbox {
            held: Arc::new(alloc, Mutex::new(held))?,
        })
    }

    /// The same one, for another link or for what makes links.
    pub fn share(&self) -> Result<Outbox, NoMemory> {
        Ok(Outbox {
            held: self.held.clone()?,
        })
    }

    // Takes a client's end; gives it back if another client is served.
    pub(crate) fn open(&self, end: StreamEnd) -> Option<StreamEnd> {
        match self.held.try_lock() {
            Some(mut held) if held.end.is_none() => {
                held.end = Some(end);
                held.is_broken = false;
                held.bytes.clear();
                None
            }
            _ => Some(end),
        }
    }

    // Sends what waits, and gives the client's end back unless it is broken, which closes it.
    pub(crate) fn close(&self) -> Option<StreamEnd> {
        let mut held = self.held.try_lock()?;
        let is_whole = held.flush();
        let end = held.end.take();
        if is_whole { end } else { None }
    }

    // Sends what waits, and tells whether nothing failed until now.
    pub(crate) fn flush(&self) -> bool {
        match self.held.try_lock() {
            Some(mut held) => held.flush(),
            None => false,
        }
    }

    // Reads from the client, once all that waits was sent.
    pub(crate) fn receive(&self, buf: &mut [u8]) -> Option<usize>
        ensures { IfSome result (λ n. n ≤ length buf.new) }
    {
        self.held.try_lock()?.receive(buf)
    }

    // Looks at what comes of the client, once all that waits was sent.
    pub(crate) fn look(&self, buf: &mut [u8], wait: LookWait) -> AtHand
        ensures { IfCame result (λ n. n ≤ length buf.new) }
    {
        match self.held.try_lock() {
            Some(mut held) => held.look(buf, wait),
            None => AtHand::Broken,
        }
    }

    // Tells the client's end what is waited for next.
    pub(crate) fn await_next(&self, what: Awaited) {
        if let Some(mut held) = self.held.try_lock() {
            held.await_next(what);
        }
    }

    // Holds a front of a piece back, or sends it.
    pub(crate) fn put(&self, piece: &[u8]) -> Option<usize>
        requires { 0 < length piece.now }
        ensures { IfSome result (λ n. (0 < n) × (n ≤ length piece.now)) }
    {
        self.held.try_lock()?.put(piece)
    }
}
