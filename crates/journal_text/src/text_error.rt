//! The reasons why a text isn't read.
use jk_io::NoMemory;
use thiserror::Error;

/// Why a text isn't read.
#[derive(Clone, Copy, Debug, PartialEq, Eq, Error)]
pub enum TextError {
    /// The first line that can't be read, from 1 on.
    #[error("line {line}: unreadable")]
    Unreadable { line: u32 },
    #[error("out of memory")]
    NoMemory,
}

impl From<NoMemory> for TextError {
    ghost use Rattle.std.specs.Prelude.{◌≡◌};
    ghost use Rattle.journal_text.specs.declared.text_error.TextError.TheVariants as error;

    ghost from_gives = { λ _ e. e ≡ error.NoMemory };

    fn from(_error: NoMemory) -> TextError {
        TextError::NoMemory
    }
}
