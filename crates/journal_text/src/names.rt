//! Names as words.
ghost use Rattle.std.specs.Prelude.{◌≡◌, ◌∷◌, ◌++◌, OnOk, IfOk};
ghost use Rattle.std.specs.Fmt.{digit_glyph};
ghost use Rattle.std.specs.Prelude.{true, ◌<◌};
ghost use Rattle.journal_text.specs.Names.{escaped, escaped_byte, is_plain, name_of, name_word};

use crate::words::put_word;
use jk_io::{Bytes, NoMemory};
use percent_encoding::percent_decode;
use std::alloc::Global;

fn is_plain(byte: u8) -> bool
    ensures { result ≡ is_plain byte }
{
    byte.is_ascii_alphanumeric() || (byte == b'-' || (byte == b'_' || byte == b'.'))
}

/// An upper-case hexadecimal digit.
fn digit(value: u8) -> u8
    requires { value < 16 }
    ensures { result ≡ digit_glyph true value }
{
    if value < 10 {
        b'0' + value
    } else {
        b'A' + (value - 10)
    }
}

#[tactic(auto, unfolding(percent_encoding::specs::Percent::percent_encode_byte))]
fn put_byte(out: &mut Bytes, byte: u8) -> Result<(), NoMemory>
    ensures { OnOk result (out.new ≡ out.old ++ escaped_byte byte) }
{
    if is_plain(byte) {
        return out.push(byte);
    }
    out.push(b'%')?;
    out.push(digit(byte / 16 % 16))?;
    out.push(digit(byte % 16))
}

/// Adds a name as a word.
pub(crate) fn put_name(out: &mut Bytes, name: &[u8]) -> Result<(), NoMemory>
    ensures { OnOk result (out.new ≡ out.old ++ (32 ∷ name_word name.now)) }
{
    if name.is_empty() {
        return put_word(out, b"%");
    }
    out.push(b' ')?;
    for byte in name {
        put_byte(out, *byte)?;
    }
    Ok(())
}

/// The name that a word stands for, if it is one.
pub(crate) fn name_of(alloc: Global, word: &[u8]) -> Result<Bytes, NoMemory>
    ensures { IfOk result (λ name. name ≡ name_of word.now) }
{
    if word == b"%".as_slice() {
        return Ok(Bytes::new(alloc));
    }
    let mut name = Vec::new(alloc);
    percent_decode(word).append_to(&mut name)?;
    Ok(Bytes::from_vec(name))
}
