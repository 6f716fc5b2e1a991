//! The length that the Content-Length lines of a reply give together.
ghost use Rattle.std.specs.Prelude.{◌≡◌, codes};
ghost use Rattle.http_front.specs.Fields.{is_named};
ghost use Rattle.http_out.specs.Head.{length_said, length_in, next_said};

use jk_io::{Bytes, parse_decimal};

/// The length of a body, as its head says it.
#[derive(Clone, Copy, PartialEq, Eq)]
pub enum ContentLength {
    /// No line says one.
    Absent,
    /// One line says this many bytes.
    Announced(u64),
    /// More than one line, or a value that isn't 1 to 19 digits.
    Unreadable,
}

/// The most digits of a length.
const MAX_DIGITS: usize = 19;

pub fn is_content_length(line: &(Bytes, Bytes)) -> bool
    ensures { result ≡ is_named (codes "content-length") line.now }
{
    line.0.as_slice().eq_ignore_ascii_case(b"content-length")
}

fn read_length(value: &[u8]) -> ContentLength
    ensures { result ≡ length_said value.now }
{
    if value.len() > MAX_DIGITS {
        return ContentLength::Unreadable;
    }
    match parse_decimal(value) {
        Some(length) => ContentLength::Announced(length),
        None => ContentLength::Unreadable,
    }
}

/// The length that all lines of a head say together.
pub fn content_length(lines: &[(Bytes, Bytes)]) -> ContentLength
    ensures { result ≡ length_in lines.now }
{
    let mut said = ContentLength::Absent;
    for line in lines {
        if is_content_length(line) {
            said = said_with(said, line.1.as_slice());
        }
    }
    said
}

/// What is said once a further line says its value.
fn said_with(said: ContentLength, value: &[u8]) -> ContentLength
    ensures { result ≡ next_said said value.now }
{
    match said {
        ContentLength::Absent => read_length(value),
        ContentLength::Announced(_) | ContentLength::Unreadable => ContentLength::Unreadable,
    }
}
