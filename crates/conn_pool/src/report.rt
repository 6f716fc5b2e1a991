//! The counts of a look at idle links.
ghost use Rattle.std.specs.Prelude.{◌≡◌};

/// How many links were idle too long, didn't answer, were closed for want of memory, and were kept.
#[derive(Clone, Copy, Debug, PartialEq, Eq)]
pub struct WatchReport {
    pub aged: u32,
    pub dead: u32,
    pub wanted: u32,
    pub kept: u32,
}

impl WatchReport {
    /// No link was looked at.
    pub(crate) fn none() -> WatchReport
        ensures { result ≡ record { aged = 0; dead = 0; wanted = 0; kept = 0 } }
    {
        WatchReport {
            aged: 0,
            dead: 0,
            wanted: 0,
            kept: 0,
        }
    }

    /// Both together; a number stands still at its end.
    pub(crate) fn and(self, more: WatchReport) -> WatchReport {
        WatchReport {
            aged: self.aged.saturating_add(more.aged),
            dead: self.dead.saturating_add(more.dead),
            wanted: self.wanted.saturating_add(more.wanted),
            kept: self.kept.saturating_add(more.kept),
        }
    }
}
