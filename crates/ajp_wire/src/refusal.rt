//! The end of a decoder that can't go on: the first place from the left that can't be read, or want of memory.
ghost use Rattle.std.specs.Prelude.{◌≡◌, length};
ghost use Rattle.ajp_wire.specs.Reading.{told};

use crate::errors::DecodeError;
use jk_io::NoMemory;
use std::alloc::{AllocError, AllocFailed};

/// What is wrong with the bytes at a place.
#[derive(Clone, Copy, Debug, PartialEq, Eq)]
pub enum RefusalKind {
    /// The payload ends before its field does.
    Short,
    /// A code that its table doesn't have.
    BadCode,
    /// A string without its zero byte.
    BadMark,
    /// A boolean that is neither 0 nor 1.
    BadBoolean,
    /// A byte after the end.
    Extra,
    /// More headers than are allowed.
    TooMany,
    /// A string is absent that may not be.
    Absent,
}

/// A place that can't be read. It is counted from the payload's end, so that a field needs to know only what follows it.
#[derive(Clone, Copy, Debug, PartialEq, Eq)]
pub struct Refusal {
    pub kind: RefusalKind,
    /// The bytes from the place to the payload's end.
    pub left: usize,
}

/// Why a field could not be given.
#[derive(Clone, Copy, Debug, PartialEq, Eq)]
pub enum NotRead {
    Refused(Refusal),
    NoMemory,
}

impl NotRead {
    /// The error that a decoder gives for a payload of `len` bytes: here the place is counted from the front.
    pub fn told(self, len: usize) -> DecodeError
        ensures { result ≡ told len self }
    {
        let NotRead::Refused(refusal) = self else {
            return DecodeError::NoMemory;
        };
        let at = len.saturating_sub(refusal.left);
        match refusal.kind {
            RefusalKind::Short => DecodeError::Short { at },
            RefusalKind::BadCode => DecodeError::BadCode { at },
            RefusalKind::BadMark => DecodeError::BadMark { at },
            RefusalKind::BadBoolean => DecodeError::BadBoolean { at },
            RefusalKind::Extra => DecodeError::Extra { at },
            RefusalKind::TooMany => DecodeError::TooMany { at },
            RefusalKind::Absent => DecodeError::Absent { at },
        }
    }
}

/// The refusal of the field that `rest` begins with.
pub fn refused(kind: RefusalKind, rest: &[u8]) -> NotRead
    ensures { result ≡ NotRead.Refused (record { kind = kind; left = length rest.now }) }
{
    NotRead::Refused(Refusal {
        kind,
        left: rest.len(),
    })
}

impl From<NoMemory> for NotRead {
    ghost use Rattle.ajp_wire.specs.declared.refusal.NotRead.TheVariants as why;

    ghost from_gives = { λ _ e. e ≡ why.NoMemory };

    fn from(_error: NoMemory) -> NotRead {
        NotRead::NoMemory
    }
}

impl From<AllocError> for NotRead {
    ghost use Rattle.ajp_wire.specs.declared.refusal.NotRead.TheVariants as why;

    ghost from_gives = { λ _ e. e ≡ why.NoMemory };

    fn from(_error: AllocError) -> NotRead {
        NotRead::NoMemory
    }
}

impl<T: Drop> From<AllocFailed<T>> for NotRead {
    ghost use Rattle.ajp_wire.specs.declared.refusal.NotRead.TheVariants as why;

    ghost from_gives = { λ _ e. e ≡ why.NoMemory };

    fn from(_error: AllocFailed<T>) -> NotRead {
        NotRead::NoMemory
    }
}
