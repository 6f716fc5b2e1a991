//! The words for bytes with moments of the system in them.
use jk_io::{Bytes, NoMemory, put_decimal};

/// A byte of a moment by its kind.
fn kind_of(byte: u8) -> u8 {
    match byte {
        b'0'..=b'9' => b'0',
        b'a'..=b'z' | b'A'..=b'Z' => b'x',
        other => other,
    }
}

/// Adds the form of moments.
pub fn put_form(bytes: &[u8], out: &mut Bytes) -> Result<(), NoMemory> {
    for byte in bytes {
        out.push(kind_of(*byte))?;
    }
    Ok(())
}

/// Adds a line of what a client got, of a date its form.
fn put_line(line: &[u8], out: &mut Bytes) -> Result<(), NoMemory> {
    match line.strip_prefix(b"Date: ") {
        None => out.extend(line),
        Some(date) => {
            out.extend(b"Date: ")?;
            put_form(date, out)
        }
    }
}

/// Adds what a client got, of each date its form.
pub fn put_got(bytes: &[u8], out: &mut Bytes) -> Result<(), NoMemory> {
    for line in bytes.split_inclusive(|byte| *byte == b'\n') {
        put_line(line, out)?;
    }
    Ok(())
}

/// Adds a line with a status.
pub fn put_status(status: u8, out: &mut Bytes) -> Result<(), NoMemory> {
    out.extend(b"status ")?;
    put_decimal(out, u128::from(status))?;
    out.extend(b"\n")
}
