//! Why bytes could not be written, read or taken from a link.

use jk_io::NoMemory;
use thiserror::Error;

/// Why a field or a packet could not be written.
#[derive(Clone, Copy, Debug, PartialEq, Eq, Error)]
pub enum WireError {
    /// It is longer than its length can say.
    #[error("too long for its length")]
    TooLong,
    #[error("out of memory")]
    NoMemory,
}

/// Why a message could not be written.
#[derive(Clone, Copy, Debug, PartialEq, Eq, Error)]
pub enum EncodeError {
    /// Its packet exceeds the limit, or a field is longer than its length can say.
    #[error("too large for a packet")]
    TooLarge,
    #[error("out of memory")]
    NoMemory,
}

/// Why a packet could not be read. `read` is the number of bytes that came in the call, the packet's head among them.
#[derive(Clone, Copy, Debug, PartialEq, Eq, Error)]
pub enum PacketError {
    /// The bytes ended before a first one.
    #[error("no packet came")]
    End { read: u32 },
    /// The bytes ended within the packet.
    #[error("the packet ended after {read} bytes")]
    Short { read: u32 },
    /// The bytes begin no packet.
    #[error("no packet begins so")]
    BadMagic { read: u32 },
    /// The packet is longer than the limit.
    #[error("the packet exceeds the limit")]
    TooLong { read: u32 },
    /// The link failed.
    #[error("the link failed after {read} bytes")]
    Fault { read: u32 },
    #[error("out of memory")]
    NoMemory { read: u32 },
}

/// Why a string could not be taken.
#[derive(Clone, Copy, Debug, PartialEq, Eq, Error)]
pub enum FieldError {
    /// The bytes end within it.
    #[error("the bytes end at {at}")]
    Short { at: usize },
    /// The byte after it is not zero.
    #[error("no zero byte at {at}")]
    BadMark { at: usize },
}

/// Why a payload could not be decoded: the first place from the left that cannot be read, counted from 0.
#[derive(Clone, Copy, Debug, PartialEq, Eq, Error)]
pub enum DecodeError {
    /// The payload ends here, within what it should have.
    #[error("the payload ends at {at}")]
    Short { at: usize },
    /// A message, method, header or attribute has no such code.
    #[error("unknown code at {at}")]
    BadCode { at: usize },
    /// The byte after a string or a chunk is not zero.
    #[error("no zero byte at {at}")]
    BadMark { at: usize },
    /// A boolean is neither 0 nor 1.
    #[error("no boolean at {at}")]
    BadBoolean { at: usize },
    /// The first byte after the message.
    #[error("bytes behind the message at {at}")]
    Extra { at: usize },
    /// More than 100 headers are announced.
    #[error("too many headers at {at}")]
    TooMany { at: usize },
    /// A string is absent that may not be.
    #[error("absent string at {at}")]
    Absent { at: usize },
    #[error("out of memory")]
    NoMemory,
}

impl From<NoMemory> for WireError {
    ghost use Rattle.std.specs.Prelude.{◌≡◌};
    ghost use Rattle.ajp_wire.specs.declared.errors.WireError.TheVariants as Wire;

    ghost from_gives = { λ _ e. e ≡ Wire.NoMemory };

    fn from(_error: NoMemory) -> WireError {
        WireError::NoMemory
    }
}

impl From<NoMemory> for EncodeError {
    ghost use Rattle.std.specs.Prelude.{◌≡◌};
    ghost use Rattle.ajp_wire.specs.declared.errors.EncodeError.TheVariants as Encode;

    ghost from_gives = { λ _ e. e ≡ Encode.NoMemory };

    fn from(_error: NoMemory) -> EncodeError {
        EncodeError::NoMemory
    }
}
