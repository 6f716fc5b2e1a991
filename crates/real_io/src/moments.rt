//! The moment, by a clock of the system that never goes back.

use libc::types::timespec;
use libc::{CLOCK_MONOTONIC, clock_gettime};

/// Milliseconds since a moment before the program's start; 0 where the clock can't be read.
pub fn moment() -> u64 {
    let mut time = timespec {
        tv_sec: 0,
        tv_nsec: 0,
    };
    if clock_gettime(CLOCK_MONOTONIC, &mut time) != 0 {
        return 0;
    }
    let seconds = u64::try_from(time.tv_sec).unwrap_or(0);
    let nanos = u64::try_from(time.tv_nsec).unwrap_or(0);
    seconds
        .saturating_mul(1_000)
        .saturating_add(nanos / 1_000_000)
}
