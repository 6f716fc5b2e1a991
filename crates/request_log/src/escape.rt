//! Text with escapes.
ghost use Rattle.std.specs.Prelude.{◌≡◌, ◌<◌, ◌++◌, OnOk};
ghost use Rattle.request_log.specs.Lines.{escaped, escaped_byte, hex_digit, is_escaped};

use jk_io::{Bytes, NoMemory};

fn is_escaped(byte: u8) -> bool
    ensures { result ≡ is_escaped byte }
{
    byte < 33 || 126 < byte || byte == b'"' || byte == b'\\'
}

/// A digit of base 16.
fn hex_digit(n: u8) -> u8
    requires { n < 16 }
    ensures { result ≡ hex_digit n }
{
    if n < 10 { b'0' + n } else { b'a' - 10 + n }
}

fn put_byte(out: &mut Bytes, byte: u8) -> Result<(), NoMemory>
    ensures { OnOk result (out.new ≡ out.old ++ escaped_byte byte) }
{
    if !is_escaped(byte) {
        return out.push(byte);
    }
    out.extend(&[b'\\', b'x', hex_digit(byte / 16), hex_digit(byte % 16)])
}

/// Adds a text, in which no byte breaks a line or a field.
pub(crate) fn put_escaped(out: &mut Bytes, text: &[u8]) -> Result<(), NoMemory>
    ensures { OnOk result (out.new ≡ out.old ++ escaped text.now) }
{
    for byte in text {
        put_byte(out, *byte)?;
    }
    Ok(())
}
