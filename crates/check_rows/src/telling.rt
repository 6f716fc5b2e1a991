//! The words by which a row is told.

use jk_io::NoMemory;
use std::fmt::{Debug, Write};

/// Adds a space where words stand already.
pub fn part(out: &mut String) -> Result<(), NoMemory> {
    if !out.is_empty() {
        out.push(' ')?;
    }
    Ok(())
}

pub fn put_word(out: &mut String, word: &str) -> Result<(), NoMemory> {
    part(out)?;
    out.push_str(word)?;
    Ok(())
}

/// Adds a word and a number.
pub fn put_count(out: &mut String, word: &str, count: u64) -> Result<(), NoMemory> {
    put_word(out, word)?;
    write!(out, " {count}")?;
    Ok(())
}

/// Adds bytes in quotes, with escapes for the backslash and for what isn't printable ASCII.
pub fn put_bytes(out: &mut String, bytes: &[u8]) -> Result<(), NoMemory> {
    part(out)?;
    out.push('"')?;
    put_plain(out, bytes)?;
    out.push('"')?;
    Ok(())
}

/// Adds bytes without quotes.
pub fn put_plain(out: &mut String, bytes: &[u8]) -> Result<(), NoMemory> {
    for byte in bytes {
        put_byte(out, *byte)?;
    }
    Ok(())
}

fn put_byte(out: &mut String, byte: u8) -> Result<(), NoMemory> {
    match byte {
        b'\r' => out.push_str("\\r")?,
        b'\n' => out.push_str("\\n")?,
        b'\t' => out.push_str("\\t")?,
        b'\\' => out.push_str("\\x5c")?,
        b' '..=b'~' => out.push(char::from(byte))?,
        _ => write!(out, "\\x{byte:02x}")?,
    }
    Ok(())
}

/// Adds how often a call of a link failed, where one did.
pub fn put_faults(out: &mut String, faults: u64) -> Result<(), NoMemory> {
    if faults > 0 {
        put_count(out, "faults", faults)?;
    }
    Ok(())
}

/// Adds a value as its derive shows it.
pub fn put_shown<T: Debug>(out: &mut String, value: &T) -> Result<(), NoMemory> {
    part(out)?;
    write!(out, "{value:?}")?;
    Ok(())
}
