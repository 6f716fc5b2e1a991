//! Escapes in a part of a query.
ghost use Rattle.std.specs.Prelude.{◌≡◌, ◌<◌, IfOk, IfErr};
ghost use Rattle.std.specs.Char.{digit_value, is_digit};
ghost use Rattle.percent_encoding.specs.Percent.{percent_decode};
ghost use Rattle.status_worker.specs.Escapes.{begins_with_digits, has_good_escapes};

use jk_io::{Bytes, NoMemory};
use percent_encoding::percent_decode;
use std::alloc::Global;

fn is_hex_digit(byte: u8) -> bool
    ensures { result ≡ is_digit byte 16 }
{
    char::from(byte).is_digit(16)
}

/// Whether two hexadecimal digits stand at the front.
fn begins_with_digits(bytes: &[u8]) -> bool
    ensures { result ≡ begins_with_digits bytes.now }
{
    bytes.len() >= 2 && is_hex_digit(bytes[0]) && is_hex_digit(bytes[1])
}

/// Whether two hexadecimal digits follow each `%`.
pub(crate) fn has_good_escapes(part: &[u8]) -> bool
    ensures { result ≡ has_good_escapes part.now }
{
    for (at, byte) in part.iter().enumerate() {
        if *byte == b'%' && !begins_with_digits(&part[at + 1..]) {
            return false;
        }
    }
    true
}

/// The text with each escape replaced by its byte; `+` stays.
pub(crate) fn decoded(alloc: Global, text: &[u8]) -> Result<Bytes, NoMemory>
    ensures { IfOk result (λ bytes. bytes ≡ percent_decode text.now) }
{
    let mut bytes = Vec::new(alloc);
    percent_decode(text).append_to(&mut bytes)?;
    Ok(Bytes::from_vec(bytes))
}
