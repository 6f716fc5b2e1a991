//! The clean path of a raw path, which mount rules look at.
ghost use Rattle.std.specs.Prelude.{◌≡◌, ◌<◌, ◌+◌, ◌^◌, ◌==◌, ◌++◌, Some, None, SomeIff, IfSome, IfNone, IfOk, OnOk, length, IsErrOf, map, true, false};
ghost use Rattle.std.specs.List.{before_first, list_any, position_or_len};
ghost use Rattle.std.specs.Char.{digit_value};
ghost use Rattle.http_front.specs.Path.{begins_escape, has_good_bytes, is_refused_byte, segments, clean_segment, is_dots, clean_of, slashed, joined};

use crate::answers::PathError;
use jk_io::Bytes;
use percent_encoding::percent_decode;
use std::alloc::Global;

/// The clean path of a raw path: in each segment the text from its first `;` on is dropped and the
/// escapes are decoded; then an empty segment that isn't the last goes. A path that doesn't begin with
/// `/`, one with a `\`, a bad escape, an escape that gives `/`, `\` or zero, or a dot segment, is a bad
/// one. The path `*` is its own clean path.
pub fn clean_path(alloc: Global, raw: &[u8]) -> Result<Bytes, PathError>
    ensures ok { IfOk result (λ clean. clean_of raw.now ≡ Some clean) }
    ensures bad { IsErrOf result PathError.BadPath → clean_of raw.now ≡ None }
{
    if raw == b"*".as_slice() {
        return Ok(Bytes::from_slice(alloc, raw)?);
    }
    if raw.first() != Some(&b'/') || !has_good_bytes(raw) {
        return Err(PathError::BadPath);
    }
    let mut clean = Vec::with_capacity(alloc, raw.len())?;
    clean.push(b'/')?;
    push_segments(&mut clean, &raw[1..])?;
    Ok(Bytes::from_vec(clean))
}

/// Adds the clean segments of a path, joined by slashes, without empty ones before the last.
fn push_segments(clean: &mut Vec<u8>, path: &[u8]) -> Result<(), PathError>
    ensures joined { OnOk result (clean.new.items ≡ clean.old.items ++ joined path.now) }
    ensures no_dots { OnOk result (list_any is_dots (map clean_segment (segments path.now)) ≡ false) }
    ensures bad { IsErrOf result PathError.BadPath → list_any is_dots (map clean_segment (segments path.now)) ≡ true }
{
    let mut rest = path;
    loop {
        match find_byte(rest, b'/') {
            Some(at) => {
                push_directory(clean, &rest[..at])?;
                rest = &rest[at + 1..];
            }
            None => return push_segment(clean, rest),
        }
    }
}

/// Adds one clean segment and a slash, or nothing where it is empty.
fn push_directory(clean: &mut Vec<u8>, segment: &[u8]) -> Result<(), PathError>
    ensures ok { OnOk result ((clean.new.items ≡ clean.old.items ++ slashed (clean_segment segment.now))
        × (is_dots (clean_segment segment.now) ≡ false)) }
    ensures bad { IsErrOf result PathError.BadPath → is_dots (clean_segment segment.now) ≡ true }
{
    let start = clean.len();
    push_segment(clean, segment)?;
    if start < clean.len() {
        clean.push(b'/')?;
    }
    Ok(())
}

/// Adds one clean segment.
fn push_segment(clean: &mut Vec<u8>, segment: &[u8]) -> Result<(), PathError>
    ensures ok { OnOk result ((clean.new.items ≡ clean.old.items ++ clean_segment segment.now)
        × (is_dots (clean_segment segment.now) ≡ false)) }
    ensures bad { IsErrOf result PathError.BadPath → is_dots (clean_segment segment.now) ≡ true }
{
    let start = clean.len();
    percent_decode(before(segment, b';')).append_to(clean)?;
    if is_dot_segment(&clean[start..]) {
        return Err(PathError::BadPath);
    }
    Ok(())
}

fn is_dot_segment(segment: &[u8]) -> bool
    ensures { result ≡ is_dots segment.now }
{
    segment == b".".as_slice() || segment == b"..".as_slice()
}

/// The place of the first such byte.
pub fn find_byte(bytes: &[u8], byte: u8) -> Option<usize>
    ensures found { IfSome result (λ at. (at ≡ position_or_len (λ b. b == byte) bytes.now) × (at < length bytes.now)) }
    ensures small { IfSome result (λ at. at + 1 < 2 ^ 64) }
    ensures none { IfNone result (position_or_len (λ b. b == byte) bytes.now ≡ length bytes.now) }
{
    for (at, b) in bytes.iter().enumerate() {
        if *b == byte {
            return Some(at);
        }
    }
    None
}

/// What stands before the first such byte, all where there is none.
pub fn before(bytes: &[u8], byte: u8) -> &[u8]
    ensures { result.now ≡ before_first (λ b. b == byte) bytes.now }
{
    match find_byte(bytes, byte) {
        Some(at) => &bytes[..at],
        None => bytes,
    }
}

/// Whether no `\` stands in the path, and each `%` begins a good escape.
fn has_good_bytes(path: &[u8]) -> bool
    ensures { result ≡ has_good_bytes path.now }
{
    for (at, byte) in path.iter().enumerate() {
        if *byte == b'\\' {
            return false;
        }
        if *byte == b'%' && !begins_escape(&path[at + 1..]) {
            return false;
        }
    }
    true
}

/// Whether an escape's two digits stand at the front and give a byte that may be given.
fn begins_escape(bytes: &[u8]) -> bool
    ensures { result ≡ begins_escape bytes.now }
{
    if bytes.len() < 2 {
        return false;
    }
    match (hex_value(bytes[0]), hex_value(bytes[1])) {
        (Some(high), Some(low)) => !is_refused(16 * high + low),
        _ => false,
    }
}

fn is_refused(byte: u32) -> bool
    ensures { result ≡ is_refused_byte byte }
{
    byte == 47 || byte == 92 || byte == 0
}

fn hex_value(byte: u8) -> Option<u32>
    ensures { SomeIff result (digit_value byte < 16) (digit_value byte) }
{
    char::from(byte).to_digit(16)
}
