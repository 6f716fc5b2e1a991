//! The refusals of everything outside: a call that failed, a file that is too long, want of memory.
ghost use Rattle.std.specs.Prelude.{◌≡◌};

use std::alloc::{AllocError, AllocFailed};
use thiserror::Error;

/// Memory was wanted and not had. What stands after it is what stood before the call, unless the call says otherwise.
#[derive(Clone, Copy, Debug, PartialEq, Eq, Error)]
#[error("out of memory")]
pub struct NoMemory;

/// Why a read, a write, a dial or an accept was refused.
#[derive(Clone, Copy, Debug, PartialEq, Eq, Error)]
pub enum IoError {
    /// The thing outside failed, and the object's count of faults rose.
    #[error("the call failed")]
    Failed,
    #[error("out of memory")]
    NoMemory,
}

/// Why a file, or an input that is read to its end, was refused.
#[derive(Clone, Copy, Debug, PartialEq, Eq, Error)]
pub enum FileError {
    /// The thing outside failed, and the object's count of faults rose.
    #[error("the file can't be read")]
    Failed,
    /// There are more than 67,108,864 bytes.
    #[error("too long")]
    TooLong,
    #[error("out of memory")]
    NoMemory,
}

impl From<AllocError> for NoMemory {
    fn from(_error: AllocError) -> NoMemory {
        NoMemory
    }
}

impl<T: Drop> From<AllocFailed<T>> for NoMemory {
    fn from(_error: AllocFailed<T>) -> NoMemory {
        NoMemory
    }
}

impl From<NoMemory> for IoError {
    ghost use Rattle.jk_io.specs.declared.failures.IoError.TheVariants as Io;

    ghost from_gives = { λ _ e. e ≡ Io.NoMemory };

    fn from(_error: NoMemory) -> IoError {
        IoError::NoMemory
    }
}

impl From<AllocError> for IoError {
    ghost use Rattle.jk_io.specs.declared.failures.IoError.TheVariants as Io;

    ghost from_gives = { λ _ e. e ≡ Io.NoMemory };

    fn from(_error: AllocError) -> IoError {
        IoError::NoMemory
    }
}

impl From<NoMemory> for FileError {
    ghost use Rattle.jk_io.specs.declared.failures.FileError.TheVariants as File;

    ghost from_gives = { λ _ e. e ≡ File.NoMemory };

    fn from(_error: NoMemory) -> FileError {
        FileError::NoMemory
    }
}
