//! A log's format: bytes that stand as they are, and letters after `%`.
ghost use Rattle.std.specs.Prelude.{◌≡◌, ◌⊎◌, List, [], ◌∷◌, ◌++◌, IfOk, IfSome, IfNone, IfErr, true, false};
ghost use Rattle.request_log.specs.Formats.{IsFormat, IsRefusedAt, IsUsable, is_refused, letter_of, spelling};

use crate::format_error::FormatError;
use jk_io::ListOf;
use std::alloc::Global;

/// What a part of a format stands for.
#[derive(Clone, Copy, Debug, PartialEq, Eq)]
pub enum Part {
    /// A byte as it stands.
    Text(u8),
    Method,
    /// The raw path.
    Path,
    /// `?` and the query, where there is one.
    Query,
    Status,
    /// How many bytes the reply's body has.
    Body,
    Worker,
    /// The request line.
    First,
    /// The client's address.
    Client,
    /// When the request's head was read.
    Moment,
    /// How long its answer took, in milliseconds.
    Millis,
}

/// Parts in order.
pub type Format = ListOf<Part>;

/// What the letter after a `%` stands for.
fn part_of(letter: u8) -> Option<Part>
    ensures { result ≡ letter_of letter }
{
    match letter {
        b'%' => Some(Part::Text(b'%')),
        b'm' => Some(Part::Method),
        b'U' => Some(Part::Path),
        b'q' => Some(Part::Query),
        b's' => Some(Part::Status),
        b'b' => Some(Part::Body),
        b'w' => Some(Part::Worker),
        b'r' => Some(Part::First),
        b'h' => Some(Part::Client),
        b't' => Some(Part::Moment),
        b'D' => Some(Part::Millis),
        _ => None,
    }
}

/// The part at the front of a text, and what follows it; None at the text's end, and where no part begins.
fn next_part(text: &[u8]) -> Option<(Part, &[u8])>
    ensures some { IfSome result (λ p. (text.now ≡ spelling p.0 ++ p.1.now) × IsUsable p.0) }
    ensures none { IfNone result ((text.now ≡ []) ⊎ (is_refused text.now ≡ true)) }
{
    match text {
        [b'\n' | b'\r', ..] | [] | [b'%'] => None,
        [b'%', letter, after @ ..] => Some((part_of(*letter)?, after)),
        [byte, after @ ..] => Some((Part::Text(*byte), after)),
    }
}

/// Reads a format.
pub fn read_format(alloc: Global, text: &[u8]) -> Result<Format, FormatError>
    ensures ok { IfOk result (λ format. IsFormat text.now format) }
    ensures refused { IfErr result (IsRefusedAt text.now) }
{
    let mut parts = ListOf::new(alloc);
    let mut rest = text;
    while let Some((part, after)) = next_part(rest) {
        parts.push(part)?;
        rest = after;
    }
    if rest.is_empty() {
        return Ok(parts);
    }
    Err(FormatError::BadFormat {
        at: (text.len() - rest.len()) as u64,
    })
}
