//! The system's clock, for the moments of a log's lines.

use request_log::Times;
use std::time::Clock;

/// The milliseconds of the system's clock.
#[derive(Drop)]
pub struct RealTimes<'r, R: Clock> {
    rt: &'r R,
}

impl<'r, R: Clock> RealTimes<'r, R> {
    /// The clock of this system. No memory is taken.
    pub fn new(rt: &'r R) -> RealTimes<'r, R> {
        RealTimes { rt }
    }
}

impl<'r, R: Clock> Times for RealTimes<'r, R> {
    fn millis(&mut self) -> Option<u64> {
        let time = self.rt.since_1970().ok()?;
        u64::try_from(time.as_millis()).ok()
    }
}
