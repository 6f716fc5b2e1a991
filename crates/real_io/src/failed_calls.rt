//! The count of an object's calls that failed.
ghost use Rattle.std.specs.Prelude.{◌≡◌, ◌≤◌};
ghost use Rattle.jk_io.specs.Told.{Rose};

use jk_io::IoError;
use std::marker::Model;

/// How many calls of an object failed. It stands still at the last value of a u64.
#[derive(Drop)]
pub(crate) struct FailedCalls {
    count: u64,
}

impl Model for FailedCalls {
    ghost use Rattle.std.specs.Prelude.{ℕ};

    ghost Value = { ℕ };

    ghost view = { λ f. f.count };
}

impl FailedCalls {
    /// None failed yet.
    pub(crate) fn none() -> FailedCalls
        ensures { result ≡ 0 }
    {
        FailedCalls { count: 0 }
    }

    /// Counts one call more that failed.
    pub(crate) fn fail(&mut self) -> IoError
        ensures error { result ≡ IoError.Failed }
        ensures rose { Rose self.old self.new × (self.old ≤ self.new) }
    {
        self.count = self.count.saturating_add(1);
        IoError::Failed
    }
}
