//! The answers of a read of a head, and the reasons for which a head is refused.
use crate::head::Head;
use jk_io::{IoError, NoMemory};
use std::alloc::{AllocError, AllocFailed};
use thiserror::Error;

/// What stands at the front of the client's bytes.
#[derive(Drop)]
pub enum HeadGot {
    /// A request's head.
    Head(Head),
    /// The bytes ended between two requests.
    End,
}

/// What a head is refused for. Where several hold, the answer is the first in this order.
#[derive(Clone, Copy, Debug, PartialEq, Eq)]
pub enum Form {
    /// The bytes up to the empty line are no head of HTTP/1.0 or HTTP/1.1.
    BadHead,
    /// More than 100 header lines, or no empty line within 16,384 bytes.
    TooBig,
    /// A 1.1 request without exactly one Host, a 1.0 request with more than one, or a bad port.
    BadHost,
    /// Both Content-Length and Transfer-Encoding.
    TwoFramings,
    /// More than one Content-Length, or one that isn't 1 to 19 digits.
    BadLength,
    /// Transfer-Encoding in a 1.0 request.
    OldChunked,
    /// A Transfer-Encoding that isn't one line `chunked`.
    BadCoding,
    /// The method CONNECT.
    Connect,
    /// A Content-Length of 2^40 or more.
    TooLong,
    /// A path that isn't clean.
    BadPath,
}

impl Form {
    ghost use Rattle.std.specs.Prelude.{◌≡◌};
    ghost use Rattle.http_front.specs.Refusal.{status_of};

    /// The status of the answer to such a head.
    pub fn status(self) -> u16
        ensures { result ≡ status_of self }
    {
        match self {
            Form::TooBig => 431,
            Form::BadCoding | Form::Connect => 501,
            Form::TooLong => 413,
            Form::BadHead
            | Form::BadHost
            | Form::TwoFramings
            | Form::BadLength
            | Form::OldChunked
            | Form::BadPath => 400,
        }
    }
}

/// Why no head was read. After each of them no byte of the inbox is used.
#[derive(Clone, Copy, Debug, PartialEq, Eq, Error)]
pub enum HeadError {
    /// The client's fault: what stands there is refused.
    #[error("refused with {status}: {form:?}")]
    Refused { status: u16, form: Form },
    /// The client's bytes ended within a head.
    #[error("the bytes end within a head")]
    Truncated,
    /// A read failed.
    #[error("the client can't be read")]
    Fault,
    #[error("out of memory")]
    NoMemory,
}

/// Why a path is refused.
#[derive(Clone, Copy, Debug, PartialEq, Eq, Error)]
pub enum PathError {
    #[error("bad path")]
    BadPath,
    #[error("out of memory")]
    NoMemory,
}

impl From<NoMemory> for PathError {
    ghost use Rattle.std.specs.Prelude.{◌≡◌};
    ghost use Rattle.http_front.specs.declared.answers.PathError.TheVariants as path;

    ghost from_gives = { λ _ e. e ≡ path.NoMemory };

    fn from(_error: NoMemory) -> PathError {
        PathError::NoMemory
    }
}

impl From<AllocError> for PathError {
    ghost use Rattle.std.specs.Prelude.{◌≡◌};
    ghost use Rattle.http_front.specs.declared.answers.PathError.TheVariants as path;

    ghost from_gives = { λ _ e. e ≡ path.NoMemory };

    fn from(_error: AllocError) -> PathError {
        PathError::NoMemory
    }
}

impl<T: Drop> From<AllocFailed<T>> for PathError {
    ghost use Rattle.std.specs.Prelude.{◌≡◌};
    ghost use Rattle.http_front.specs.declared.answers.PathError.TheVariants as path;

    ghost from_gives = { λ _ e. e ≡ path.NoMemory };

    fn from(_error: AllocFailed<T>) -> PathError {
        PathError::NoMemory
    }
}

impl From<NoMemory> for HeadError {
    ghost use Rattle.std.specs.Prelude.{◌≡◌};
    ghost use Rattle.http_front.specs.declared.answers.HeadError.TheVariants as error;

    ghost from_gives = { λ _ e. e ≡ error.NoMemory };

    fn from(_error: NoMemory) -> HeadError {
        HeadError::NoMemory
    }
}

impl From<IoError> for HeadError {
    ghost use Rattle.std.specs.Prelude.{◌≡◌};
    ghost use Rattle.http_front.specs.Refusal.{read_error};

    ghost from_gives = { λ error e. e ≡ read_error error };

    fn from(error: IoError) -> HeadError {
        match error {
            IoError::Failed => HeadError::Fault,
            IoError::NoMemory => HeadError::NoMemory,
        }
    }
}
