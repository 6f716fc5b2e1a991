//! How long a client may wait.
ghost use Rattle.std.specs.Prelude.{◌≡◌, ◌↔◌, ◌+◌, ◌-◌, ◌<◌, ◌≤◌, IsTrue};
ghost use Rattle.waiting_room.specs.Stays.{IsOver, between_of, millis_of, stay_after};

use jk_io::ClientLimits;

/// What a client waits for.
#[derive(Clone, Copy, Debug, PartialEq, Eq)]
pub enum Phase {
    /// A whole head: its first one, or one of which a byte came.
    Head,
    /// The first byte of its next head.
    Between,
    /// Its reply to arrive: this side sends no more, and drops what the client still sends.
    Lingers,
}

/// A client's wait.
#[derive(Clone, Copy, Debug, PartialEq, Eq)]
pub struct Stay {
    pub phase: Phase,
    /// When the phase began, in milliseconds.
    pub since: u64,
    /// When a byte came last, of a client that lingers.
    pub last: u64,
}

/// The limits of a wait, in milliseconds; 0 is without limit.
#[derive(Clone, Copy, Debug, PartialEq, Eq)]
pub struct Limits {
    /// For a whole head.
    pub head: u64,
    /// Between two requests.
    pub keep: u64,
}

/// The milliseconds without a byte after which a client lingers no longer.
const QUIET_MILLIS: u64 = 2_000;

/// The milliseconds after which a client lingers no longer.
const LINGER_MILLIS: u64 = 30_000;

impl Limits {
    /// The limits that a front lets its clients take.
    pub fn of(limits: &ClientLimits) -> Limits
        ensures { result ≡ record { head = millis_of limits.now.head; keep = millis_of limits.now.keep } }
    {
        Limits {
            head: limits.head.saturating_mul(1_000),
            keep: limits.keep.saturating_mul(1_000),
        }
    }
}

impl Stay {
    /// A wait that begins at this moment.
    pub fn new(phase: Phase, now: u64) -> Stay
        ensures { result ≡ record { phase = phase; since = now; last = now } }
    {
        Stay {
            phase,
            since: now,
            last: now,
        }
    }

    /// The wait after a look at the client, of whose head so many bytes came.
    pub fn after(self, count: u64, now: u64) -> Stay
        ensures { result ≡ stay_after self.phase self count now }
    {
        match self.phase {
            Phase::Between if count != 0 => Stay::new(Phase::Head, now),
            _ => self,
        }
    }

    /// How many milliseconds it lasted until now, if it is one between two requests.
    pub fn between(self, now: u64) -> Option<u64>
        ensures { result ≡ between_of self.phase (now - self.since) }
    {
        match self.phase {
            Phase::Between => Some(now.saturating_sub(self.since)),
            _ => None,
        }
    }

    /// Whether it has lasted too long.
    pub fn is_over(self, limits: Limits, now: u64) -> bool
        ensures { IsTrue result ↔ IsOver limits self now }
    {
        match self.phase {
            Phase::Head => has_passed(self.since, limits.head, now),
            Phase::Between => has_passed(self.since, limits.keep, now),
            Phase::Lingers => {
                now.saturating_sub(self.last) >= QUIET_MILLIS
                    || now.saturating_sub(self.since) >= LINGER_MILLIS
            }
        }
    }
}

// Whether a limit has passed since a moment; 0 is none.
fn has_passed(since: u64, limit: u64, now: u64) -> bool
    ensures { IsTrue result ↔ (0 < limit) × (since + limit ≤ now) }
{
    limit != 0 && now.saturating_sub(since) >= limit
}
