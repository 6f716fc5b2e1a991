//! The moment at which everything ends.

use crate::moments::moment;
use jk_io::NoMemory;
use std::alloc::Global;
use std::sync::Arc;
use std::sync::atomic::{AtomicU64, Ordering};

/// The moment at which everything ends at the latest. Its shares see it once it is set.
#[derive(Drop)]
pub struct Ending {
    at: Arc<AtomicU64>,
}

impl Ending {
    /// One that isn't set.
    pub fn new(alloc: Global) -> Result<Ending, NoMemory> {
        Ok(Ending {
            at: Arc::new(alloc, AtomicU64::new(u64::MAX))?,
        })
    }

    /// The same one, for something else that waits.
    pub fn share(&self) -> Result<Ending, NoMemory> {
        Ok(Ending {
            at: self.at.clone()?,
        })
    }

    /// Everything ends at this moment, in milliseconds.
    pub fn set(&self, at: u64) {
        self.at.store(at, Ordering::SeqCst);
    }

    /// Whether the moment is over.
    pub fn is_over(&self) -> bool {
        let at = self.at.load(Ordering::SeqCst);
        at != u64::MAX && moment() >= at
    }
}
