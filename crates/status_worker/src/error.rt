//! Why a query gives no command.
ghost use Rattle.std.specs.Prelude.{◌≡◌};
ghost use Rattle.status_worker.specs.declared.error.StatusError.TheVariants.{NoMemory};

use std::alloc::{AllocError, AllocFailed};
use thiserror::Error;

/// Why a query gives no command.
#[derive(Clone, Copy, Debug, Error)]
pub enum StatusError {
    /// The client's fault: an unknown command, or a part that is missing, repeated or can't be read.
    #[error("the query is no command")]
    BadQuery,
    #[error("out of memory")]
    NoMemory,
}

impl From<AllocError> for StatusError {
    ghost from_gives = { λ _ e. e ≡ NoMemory };

    fn from(_error: AllocError) -> StatusError {
        StatusError::NoMemory
    }
}

impl<T: Drop> From<AllocFailed<T>> for StatusError {
    ghost from_gives = { λ _ e. e ≡ NoMemory };

    fn from(_error: AllocFailed<T>) -> StatusError {
        StatusError::NoMemory
    }
}

impl From<jk_io::NoMemory> for StatusError {
    ghost from_gives = { λ _ e. e ≡ NoMemory };

    fn from(_error: jk_io::NoMemory) -> StatusError {
        StatusError::NoMemory
    }
}
