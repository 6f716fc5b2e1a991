//! Why a body can't be taken further.
ghost use Rattle.std.specs.Prelude.{◌≡◌};
ghost use Rattle.http_front.specs.Faults.{fault_of};

use jk_io::IoError;
use thiserror::Error;

/// Why a body can't be taken further. After any of them each later call answers the same again.
#[derive(Clone, Copy, Debug, PartialEq, Eq, Error)]
pub enum BodyFault {
    /// The client's bytes ended within the body.
    #[error("the bytes end within the body")]
    Truncated,
    /// A byte breaks the grammar of chunks.
    #[error("bad chunk line")]
    BadChunk,
    /// The data of a chunked body reached its limit.
    #[error("the body is too long")]
    TooLong,
    /// A read failed.
    #[error("the client can't be read")]
    Fault,
    #[error("out of memory")]
    NoMemory,
}

/// The fault of a read that was refused.
pub fn fault_of(error: IoError) -> BodyFault
    ensures { result ≡ fault_of error }
{
    match error {
        IoError::Failed => BodyFault::Fault,
        IoError::NoMemory => BodyFault::NoMemory,
    }
}
