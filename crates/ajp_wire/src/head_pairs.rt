//! The headers of a message as they are written, in either direction.

ghost use Rattle.std.specs.Prelude.{◌≡◌, ◌+◌, ◌<◌, ◌≤◌, List, ◌++◌, length, map, OnOk, IfSome, IfNone};
ghost use Rattle.ajp_wire.specs.Names.{header_bytes, headers_bytes, FitsHeader, FitsHeaders};
ghost use Rattle.ajp_wire.specs.declared.names.TheConstants.{CODES_LIMIT};

use crate::names::code_of;
use crate::writing::{MAX_STRING_BYTES, put_int, put_text};
use jk_io::{Bytes, ListOf, NoMemory};

/// Pairs of a name and a value, in order.
pub type HeadPairs = ListOf<(Bytes, Bytes)>;

/// The most headers of a message.
pub const MAX_HEADERS: usize = 100;

/// The most bytes of a name: a greater length would read as a code.
pub const MAX_NAME_BYTES: usize = 40_959;

/// A header is spelled in fewer bytes than this.
pub const HEADER_ROOM: usize = 131_072;

/// The headers of a message are spelled in no more bytes than this.
pub const HEADERS_ROOM: usize = 13_107_200;

/// How many bytes spell the headers, unless a name or a value is longer than its length can say.
pub fn headers_len(headers: &[(Bytes, Bytes)], table: &[&[u8]]) -> Option<usize>
    requires few { length headers.now ≤ MAX_HEADERS }
    requires codes { length table.now < CODES_LIMIT }
    ensures value { IfSome result (λ n. n ≡ length (headers_bytes (map (λ s. s.now) table.now) headers.now)) }
    ensures bound { IfSome result (λ n. n ≤ HEADERS_ROOM) }
    ensures fits { IfSome result (λ _. FitsHeaders headers.now) }
    ensures none { IfNone result (FitsHeaders headers.now → ⊥) }
{
    let mut len = 0;
    for header in headers {
        match header_len(header, table) {
            Some(more) => len += more,
            None => return None,
        }
    }
    Some(len)
}

fn header_len(header: &(Bytes, Bytes), table: &[&[u8]]) -> Option<usize>
    requires codes { length table.now < CODES_LIMIT }
    ensures value { IfSome result (λ n. n ≡ length (header_bytes (map (λ s. s.now) table.now) header.now)) }
    ensures bound { IfSome result (λ n. n < HEADER_ROOM) }
    ensures fits { IfSome result (λ _. FitsHeader header.now) }
    ensures none { IfNone result (FitsHeader header.now → ⊥) }
{
    let (name, value) = header;
    if name.len() > MAX_NAME_BYTES {
        return None;
    }
    if value.len() > MAX_STRING_BYTES {
        return None;
    }
    match code_of(table, name.as_slice()) {
        Some(_) => Some(2 + value.len() + 3),
        None => Some(name.len() + 3 + value.len() + 3),
    }
}

/// Adds the headers at the end, each name as its code wherever it has one.
pub fn put_headers(
    out: &mut Bytes,
    headers: &[(Bytes, Bytes)],
    table: &[&[u8]],
) -> Result<(), NoMemory>
    requires fits { FitsHeaders headers.now }
    requires codes { length table.now < CODES_LIMIT }
    ensures ok { OnOk result (out.new ≡ out.old ++ headers_bytes (map (λ s. s.now) table.now) headers.now) }
{
    for header in headers {
        put_header(out, header, table)?;
    }
    Ok(())
}

fn put_header(out: &mut Bytes, header: &(Bytes, Bytes), table: &[&[u8]]) -> Result<(), NoMemory>
    requires fits { FitsHeader header.now }
    requires codes { length table.now < CODES_LIMIT }
    ensures ok { OnOk result (out.new ≡ out.old ++ header_bytes (map (λ s. s.now) table.now) header.now) }
{
    let (name, value) = header;
    match code_of(table, name.as_slice()) {
        Some(code) => put_int(out, code)?,
        None => put_text(out, name.as_slice())?,
    }
    put_text(out, value.as_slice())
}
