//! Whether workers are free for who comes, so that one may wait for its own client alone.

use jk_io::NoMemory;
use std::alloc::Global;
use std::sync::Arc;
use std::sync::atomic::{AtomicBool, Ordering};

/// A client is quick whose next head is there so many milliseconds after its last reply.
pub const GLANCE_MILLIS: u64 = 1;

/// For how many milliseconds a worker waits for its own client at a time.
pub const LOOK_MILLIS: u64 = 10;

/// For how many milliseconds it waits for one client at most, before it gives it back all the same.
pub(crate) const MOST_LOOK_MILLIS: u64 = 2_560;

/// Whether workers are free, so that one may look at its own client for a moment. Its shares see what it is told.
#[derive(Drop)]
pub struct Leisure {
    is_there: Arc<AtomicBool>,
}

impl Leisure {
    /// No worker is free.
    pub fn new(alloc: Global) -> Result<Leisure, NoMemory> {
        Ok(Leisure {
            is_there: Arc::new(alloc, AtomicBool::new(false))?,
        })
    }

    /// The same one, for a link.
    pub fn share(&self) -> Result<Leisure, NoMemory> {
        Ok(Leisure {
            is_there: self.is_there.clone()?,
        })
    }

    /// Is told whether workers are free.
    pub fn tell(&self, is_there: bool) {
        if self.is_there() != is_there {
            self.is_there.store(is_there, Ordering::SeqCst);
        }
    }

    /// Whether workers are free.
    pub fn is_there(&self) -> bool {
        self.is_there.load(Ordering::SeqCst)
    }
}
