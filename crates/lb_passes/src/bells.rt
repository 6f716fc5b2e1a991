//! Bells, by which the end of a turn wakes the caller of the next turn and no other.
//!
//! Source: own rule.
//! A caller marks the bell of its turn before it sleeps there. No turn is lost where it looks at the turns once more between
//! the two: whoever ends the turn before finds the mark and rings, or the caller finds its turn come.
ghost use Rattle.std.specs.Prelude.{◌≡◌, vec_len};

use crate::pass_book::MAX_PASSES;
use jk_io::NoMemory;
use std::alloc::Global;
use std::sync::Wait;
use std::sync::atomic::{AtomicU64, Ordering};

/// How many bells there are: the turns that wait at one time have a bell each.
const BELLS: u64 = MAX_PASSES as u64;

/// Nobody sleeps at the bell.
const QUIET: u64 = 0;

/// Somebody is about to sleep at the bell, or sleeps.
const ASLEEP: u64 = 1;

/// A bell for each turn that can wait. No clause rests on them.
#[derive(Drop)]
pub(crate) struct Bells {
    bells: Vec<AtomicU64>,
    ghost many: { vec_len bells ≡ 64 },
}

impl Bells {
    /// Bells at which nobody sleeps.
    pub(crate) fn quiet(alloc: Global) -> Result<Bells, NoMemory> {
        let mut bells = Vec::with_capacity(alloc, BELLS as usize)?;
        for _ in 0..BELLS {
            bells.push(AtomicU64::new(QUIET))?;
        }
        Ok(Bells { bells })
    }

    fn of(&self, turn: u64) -> &AtomicU64 {
        &self.bells[(turn % BELLS) as usize]
    }

    /// The caller of the turn is about to sleep.
    pub(crate) fn mark(&self, turn: u64) {
        self.of(turn).store(ASLEEP, Ordering::SeqCst);
    }

    /// Sleeps until the turn's bell is rung, if it was not rung since it was marked. It may return for no reason.
    pub(crate) fn sleep<R: Wait>(&self, rt: &R, turn: u64) {
        self.of(turn).park(rt, ASLEEP as u32);
    }

    /// Wakes the caller of the turn if it sleeps.
    pub(crate) fn ring(&self, turn: u64) {
        let bell = self.of(turn);
        if bell.swap(QUIET, Ordering::SeqCst) == ASLEEP {
            bell.wake_one();
        }
    }
}
