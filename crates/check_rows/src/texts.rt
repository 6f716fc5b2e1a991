//! The texts of a row, with their escapes.
ghost use Rattle.std.specs.Prelude.{◌<◌, IfSome};

use crate::row::RowError;
use jk_io::{Bytes, NoMemory, NumberList, parse_decimal, put_decimal};
use std::alloc::Global;

/// What stands for `\1` and `\2`.
#[derive(Clone, Copy)]
pub struct With<'a> {
    pub first: &'a str,
    pub second: &'a str,
}

fn digit(byte: u8) -> Option<u8>
    ensures { IfSome result (λ n. n < 16) }
{
    match byte {
        b'0'..=b'9' => Some(byte - b'0'),
        b'a'..=b'f' => Some(byte - b'a' + 10),
        _ => None,
    }
}

fn byte_of(high: u8, low: u8) -> Option<u8> {
    Some(digit(high)? * 16 + digit(low)?)
}

/// What stands after a backslash.
fn put_escape(out: &mut Bytes, piece: &[u8]) -> Result<(), RowError> {
    let (byte, rest) = match piece {
        [b'e', rest @ ..] => (None, rest),
        [b'n', rest @ ..] => (Some(b'\n'), rest),
        [b'r', rest @ ..] => (Some(b'\r'), rest),
        [b't', rest @ ..] => (Some(b'\t'), rest),
        [b's', rest @ ..] => (Some(b' '), rest),
        [b'x', high, low, rest @ ..] => (byte_of(*high, *low), rest),
        _ => return Err(RowError::Unreadable),
    };
    if let Some(byte) = byte {
        out.push(byte)?;
    }
    out.extend(rest)?;
    Ok(())
}

/// A text without `\1`, `\2` and `\i`.
fn put_plain(out: &mut Bytes, text: &str) -> Result<(), RowError> {
    let (first, rest) = text.split_once('\\').unwrap_or((text, ""));
    out.extend(first.as_bytes())?;
    if first.len() < text.len() {
        for piece in rest.split('\\') {
            put_escape(out, piece.as_bytes())?;
        }
    }
    Ok(())
}

fn put_piece(out: &mut Bytes, piece: &[u8], with: With<'_>, number: u64) -> Result<(), RowError> {
    let rest = match piece {
        [b'1', rest @ ..] => {
            put_plain(out, with.first)?;
            rest
        }
        [b'2', rest @ ..] => {
            put_plain(out, with.second)?;
            rest
        }
        [b'i', rest @ ..] => {
            put_decimal(out, u128::from(number))?;
            rest
        }
        _ => return put_escape(out, piece),
    };
    out.extend(rest)?;
    Ok(())
}

/// Puts a text, with a number for `\i`.
pub(crate) fn put_text(
    out: &mut Bytes,
    text: &str,
    with: With<'_>,
    number: u64,
) -> Result<(), RowError> {
    let (first, rest) = text.split_once('\\').unwrap_or((text, ""));
    out.extend(first.as_bytes())?;
    if first.len() < text.len() {
        for piece in rest.split('\\') {
            put_piece(out, piece.as_bytes(), with, number)?;
        }
    }
    Ok(())
}

/// The bytes that a text spells; none where it has an escape of no form.
pub fn bytes_of(alloc: Global, text: &str) -> Result<Bytes, NoMemory> {
    let mut bytes = Bytes::new(alloc);
    match put_plain(&mut bytes, text) {
        Ok(()) => Ok(bytes),
        Err(RowError::Unreadable) => Ok(Bytes::new(alloc)),
        Err(RowError::NoMemory) => Err(NoMemory),
    }
}

/// The number that a text writes, 0 where it writes none.
pub fn number(text: &str) -> u64 {
    parse_decimal(text.as_bytes()).unwrap_or(0)
}

/// The numbers of a list, which has ` & ` between its items; `-` is none.
pub fn numbers_of(alloc: Global, list: &str) -> Result<NumberList, NoMemory> {
    let mut numbers = NumberList::new(alloc);
    if list != "-" {
        for item in list.split(" & ") {
            numbers.push(number(item))?;
        }
    }
    Ok(numbers)
}

/// The two sides of an item with `: ` in it.
pub fn pair_of(alloc: Global, item: &str) -> Result<(Bytes, Bytes), NoMemory> {
    let (name, value) = item.split_once(": ").unwrap_or((item, ""));
    Ok((bytes_of(alloc, name)?, bytes_of(alloc, value)?))
}
