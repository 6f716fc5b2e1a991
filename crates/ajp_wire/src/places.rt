//! Integers and strings at a place of a payload. No memory is taken.

ghost use Rattle.std.specs.Prelude.{◌+◌, ◌<◌, length, IfSome, IfNone, IfOk, IfErr};
ghost use Rattle.ajp_wire.specs.Places.{IsIntAt, IsStringAt, RefusesString};

use crate::errors::FieldError;

/// The length that says that a string is absent.
const ABSENT: u16 = 0xFFFF;

/// The integer at a place, and the place after it. None where fewer than two bytes are there.
pub fn take_int(bytes: &[u8], at: usize) -> Option<(u16, usize)>
    ensures found { IfSome result (λ taken. IsIntAt bytes.now at taken.0 taken.1) }
    ensures none { IfNone result (length bytes.now < at + 2) }
{
    if at > bytes.len() {
        return None;
    }
    match &bytes[at..] {
        [high, low, ..] => Some((u16::from(*high) * 256 + u16::from(*low), at + 2)),
        _ => None,
    }
}

/// The string at a place, as the place and the length of its text, and the place after it. An absent one is None.
pub fn take_string(bytes: &[u8], at: usize) -> Result<(Option<(usize, usize)>, usize), FieldError>
    ensures found { IfOk result (λ taken. IsStringAt bytes.now at taken.0 taken.1) }
    ensures refused { IfErr result (λ error. RefusesString bytes.now at error) }
{
    let Some((size, text_at)) = take_int(bytes, at) else {
        return Err(FieldError::Short { at: bytes.len() });
    };
    if size == ABSENT {
        return Ok((None, text_at));
    }
    let mark = text_at + size as usize;
    if mark >= bytes.len() {
        return Err(FieldError::Short { at: bytes.len() });
    }
    if bytes[mark] != 0 {
        return Err(FieldError::BadMark { at: mark });
    }
    Ok((Some((text_at, size as usize)), mark + 1))
}
