//! A gate with numbered places, and a fake link that waits at one or raises one.
ghost use Rattle.std.specs.Prelude.{◌≡◌, ◌<◌, false};
ghost use Rattle.jk_io.specs.declared.memory.gate.TheConstants.{GATE_PLACES};

use crate::failures::IoError;
use crate::traits::streams::{Awaited, Link, Meanings, Sink, Source};
use std::sync::{Mutex, Wait};
use std::thread;
use std::time::{Clock, Duration};

/// How often a waiting read looks, a millisecond apart, before it fails.
const MAX_LOOKS: u32 = 10_000;

/// How many places a gate has, numbered from 0.
pub const GATE_PLACES: u32 = 64;

/// Places that one thread raises and others look at.
#[derive(Drop)]
pub struct Gate<'r, R> {
    rt: &'r R,
    /// Bit p is 1 where place p was raised.
    raised: Mutex<u64>,
}

impl<'r, R> Gate<'r, R> {
    pub fn new(rt: &'r R) -> Gate<'r, R> {
        Gate {
            rt,
            raised: Mutex::new(0),
        }
    }
}

impl<'r, R: Wait> Gate<'r, R> {
    pub fn raise(&self, place: u32)
        requires { place < GATE_PLACES }
    {
        let mut raised = self.raised.lock(self.rt);
        *raised |= 1 << place;
    }

    pub fn is_raised(&self, place: u32) -> bool
        requires { place < GATE_PLACES }
    {
        let raised = self.raised.lock(self.rt);
        *raised >> place & 1 == 1
    }
}

/// What a link has to do with a place of a gate.
#[derive(Clone, Copy, PartialEq, Eq)]
pub enum Turn {
    /// Its reads wait until the place was raised.
    Waits,
    /// A read that follows a write raises the place.
    Raises,
}

/// A link whose reads wait for a place of a gate, or raise one once its writes are done.
#[derive(Drop)]
pub struct GateLink<'g, 'r, L: Link + Drop, R> {
    link: L,
    gate: &'g Gate<'r, R>,
    place: u32,
    turn: Turn,
    wrote: bool,
    failed: u64,
    ghost known: { place < GATE_PLACES },
}

impl<'g, 'r, L: Link + Drop, R> GateLink<'g, 'r, L, R> {
    pub fn new(link: L, gate: &'g Gate<'r, R>, place: u32, turn: Turn) -> GateLink<'g, 'r, L, R>
        requires { place < GATE_PLACES }
        ensures link { (result.link ≡ link) × (result.failed ≡ 0) }
        ensures turn { (result.place ≡ place) × (result.turn ≡ turn) × (result.wrote ≡ false) }
    {
        GateLink {
            link,
            gate,
            place,
            turn,
            wrote: false,
            failed: 0,
        }
    }

    /// The link that its calls go to.
    pub fn link(&self) -> &L
        ensures { result.now ≡ self.now.link }
    {
        &self.link
    }
}

impl<'g, 'r, L: Link + Drop, R> Meanings for GateLink<'g, 'r, L, R> {
    ghost use Rattle.std.specs.Prelude.{◌+◌};

    type Beside = L::Beside;

    ghost incoming = { λ l. L.incoming l.link };

    ghost received = { λ l. L.received l.link };

    ghost sent = { λ l. L.sent l.link };

    ghost beside = { λ l. L.beside l.link };

    ghost faults = { λ l. L.faults l.link + l.failed };

    ghost is_open = { λ l. L.is_open l.link };
}

impl<'g, 'r, L: Link + Drop, R: Wait + Clock> Source for GateLink<'g, 'r, L, R> {
    fn read(&mut self, buf: &mut [u8]) -> Result<usize, IoError> {
        match self.turn {
            Turn::Waits if !waits(self.gate, self.place) => {
                self.failed = self.failed.saturating_add(1);
                return Err(IoError::Failed);
            }
            Turn::Raises if self.wrote => self.gate.raise(self.place),
            _ => {}
        }
        self.link.read(buf)
    }
}

// Waits for a place, and says whether it was raised in time.
fn waits<R: Wait + Clock>(gate: &Gate<'_, R>, place: u32) -> bool
    requires { place < GATE_PLACES }
{
    for _ in 0..MAX_LOOKS {
        if gate.is_raised(place) {
            return true;
        }
        thread::sleep(gate.rt, Duration::from_millis(1));
    }
    false
}

impl<'g, 'r, L: Link + Drop, R: Wait + Clock> Sink for GateLink<'g, 'r, L, R> {
    fn write(&mut self, piece: &[u8]) -> Result<usize, IoError> {
        self.wrote = true;
        self.link.write(piece)
    }
}

impl<'g, 'r, L: Link + Drop, R: Wait + Clock> Link for GateLink<'g, 'r, L, R> {
    ghost may_wait = { L.may_wait };

    ghost found_quiet = { λ before after. L.found_quiet before.link after.link };

    ghost heard = { λ before what after. L.heard before.link what after.link };

    fn await_next(&mut self, what: Awaited) {
        self.link.await_next(what);
    }

    fn is_quiet(&mut self) -> bool {
        self.link.is_quiet()
    }
}
