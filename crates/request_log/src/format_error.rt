//! Why a text is no format of a log.
ghost use Rattle.std.specs.Prelude.{◌≡◌, IfOk};
ghost use Rattle.request_log.specs.Formats.{refusal_line};
ghost use Rattle.request_log.specs.declared.format_error.FormatError.TheVariants as Wrong;

use jk_io::{Bytes, NoMemory, put_decimal};
use std::alloc::{AllocFailed, Global};
use thiserror::Error;

/// Why a text is no format of a log.
#[derive(Clone, Copy, Debug, PartialEq, Eq, Error)]
pub enum FormatError {
    /// The first place of the end of a line, or of a `%` with no letter after it.
    #[error("format refused at {at}")]
    BadFormat { at: u64 },
    #[error("out of memory")]
    NoMemory,
}

impl<T: Drop> From<AllocFailed<T>> for FormatError {
    ghost from_gives = { λ _ e. e ≡ Wrong.NoMemory };

    fn from(_error: AllocFailed<T>) -> FormatError {
        FormatError::NoMemory
    }
}

impl From<NoMemory> for FormatError {
    ghost from_gives = { λ _ e. e ≡ Wrong.NoMemory };

    fn from(_error: NoMemory) -> FormatError {
        FormatError::NoMemory
    }
}

/// The line that says at which place a format is refused.
pub fn refusal_line(alloc: Global, at: u64) -> Result<Bytes, NoMemory>
    ensures { IfOk result (λ line. line ≡ refusal_line at) }
{
    let mut line = Bytes::from_slice(alloc, b"format refused at ")?;
    put_decimal(&mut line, u128::from(at))?;
    line.extend(b"\n")?;
    Ok(line)
}
