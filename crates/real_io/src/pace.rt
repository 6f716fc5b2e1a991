//! How fast a client gives its body or takes its reply, at the least.
ghost use Rattle.std.specs.Prelude.{◌≡◌, ◌↔◌, ◌+◌, ◌<◌, ◌≤◌, IsTrue};
ghost use Rattle.real_io.specs.Pace.{PaceGoesOn, IsLost, least_of};

/// The seconds in which so many bytes are to go.
pub const PACE_SECONDS: u64 = 20;

const PACE_MILLIS: u64 = 20_000;

/// Bytes that are to go in 20 seconds, and how many went since these began. With 0 to go there is no limit.
#[derive(Clone, Copy)]
pub struct Pace {
    /// How many bytes are to go in 20 seconds.
    pub least: u64,
    /// The moment at which the 20 seconds began, in milliseconds.
    pub since: u64,
    /// How many bytes went since.
    pub went: u64,
}

impl Pace {
    /// The pace of so many bytes a second, from this moment on.
    pub fn new(rate: u64, since: u64) -> Pace
        ensures { result ≡ record { least = least_of rate; since = since; went = 0 } }
    {
        Pace {
            least: rate.saturating_mul(PACE_SECONDS),
            since,
            went: 0,
        }
    }

    /// The pace once more bytes went.
    pub fn after(self, count: u64, now: u64) -> Pace
        ensures { PaceGoesOn self count now result }
    {
        match self.went.checked_add(count) {
            Some(went) if went < self.least => Pace { went, ..self },
            _ => Pace {
                since: now,
                went: 0,
                ..self
            },
        }
    }

    /// Whether too few bytes went until now.
    pub fn is_lost(self, now: u64) -> bool
        ensures { IsTrue result ↔ IsLost self now }
    {
        self.went < self.least && now.saturating_sub(self.since) >= PACE_MILLIS
    }
}
