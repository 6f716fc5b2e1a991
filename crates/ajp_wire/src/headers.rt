//! The headers of a message: coded or written names, and values.
ghost use Rattle.std.specs.Prelude.{◌≡◌, ◌+◌, ◌*◌, ◌<◌, ◌≤◌, List, ℕ, length, map, Option, option_map, IfOk};
ghost use Rattle.std.specs.Option.{option_copied};
ghost use Rattle.ajp_wire.specs.Reading.{GivesReading, named_from, name_at, header_at, header_list_at, headers_at};
ghost use Rattle.ajp_wire.specs.declared.names.TheConstants.{CODES_LIMIT};

use crate::fields::{next_int, next_marked, next_text};
use crate::head_pairs::HeadPairs;
use crate::names::FIRST_CODE;
use crate::refusal::{NotRead, RefusalKind, refused};
use jk_io::Bytes;
use std::alloc::Global;

/// The code of a table's first name is below this, so that each of its names has one.
pub const FIRST_LIMIT: u16 = 65_000;

/// The name that a code stands for, in a table whose first name has the code `first`.
pub fn name_of<'a>(table: &'a [&'a [u8]], first: u16, code: u16) -> Option<&'a [u8]>
    requires few { length table.now < CODES_LIMIT }
    requires fits { first < FIRST_LIMIT }
    ensures { option_copied result ≡ named_from first (map (λ name. name.now) table.now) code }
{
    let mut at = first;
    for name in table {
        if at == code {
            return Some(name);
        }
        at += 1;
    }
    None
}

#[tactic(auto, unfolding(crate::specs::Reading::name_at))]
fn next_name<'a>(
    alloc: Global,
    table: &[&[u8]],
    absent_names: bool,
    rest: &'a [u8],
) -> Result<(Bytes, &'a [u8]), NotRead>
    requires { length table.now < CODES_LIMIT }
    ensures { GivesReading (λ x. (x.0, x.1.now)) result
        (name_at (map (λ name. name.now) table.now) absent_names rest.now) }
{
    let (first, after) = next_int(rest)?;
    if first < 0xA000 {
        let (text, after) = next_marked(first, after)?;
        return Ok((Bytes::from_slice(alloc, text)?, after));
    }
    if first == 0xFFFF {
        if absent_names {
            return Ok((Bytes::new(alloc), after));
        }
        return Err(refused(RefusalKind::Absent, rest));
    }
    match name_of(table, FIRST_CODE, first) {
        Some(name) => Ok((Bytes::from_slice(alloc, name)?, after)),
        None => Err(refused(RefusalKind::BadCode, rest)),
    }
}

#[tactic(auto, unfolding(crate::specs::Reading::header_at))]
fn next_header<'a>(
    alloc: Global,
    table: &[&[u8]],
    absent_names: bool,
    rest: &'a [u8],
) -> Result<((Bytes, Bytes), &'a [u8]), NotRead>
    requires { length table.now < CODES_LIMIT }
    ensures { GivesReading (λ x. (x.0, x.1.now)) result
        (header_at (map (λ name. name.now) table.now) absent_names rest.now) }
{
    let (name, rest) = next_name(alloc, table, absent_names, rest)?;
    let (value, rest) = next_text(alloc, true, rest)?;
    Ok(((name, value), rest))
}

fn next_header_list<'a>(
    alloc: Global,
    table: &[&[u8]],
    absent_names: bool,
    count: u16,
    bytes: &'a [u8],
) -> Result<(HeadPairs, &'a [u8]), NotRead>
    requires { length table.now < CODES_LIMIT }
    ensures { GivesReading (λ x. (x.0, x.1.now)) result
        (header_list_at (map (λ name. name.now) table.now) absent_names count bytes.now) }
{
    let mut headers = Vec::with_capacity(alloc, count as usize)?;
    let mut rest = bytes;
    for _ in 0..count {
        let (header, after) = next_header(alloc, table, absent_names, rest)?;
        headers.push(header)?;
        rest = after;
    }
    Ok((HeadPairs::from_vec(headers), rest))
}

/// The number of headers, at most 100, and the headers. A code stands for the name that `table` has in its place; a value
/// may be absent, and is then empty, and so may a name where `absent_names` says so.
#[tactic(auto, unfolding(crate::specs::Reading::headers_at))]
pub fn next_headers<'a>(
    alloc: Global,
    table: &[&[u8]],
    absent_names: bool,
    rest: &'a [u8],
) -> Result<(HeadPairs, &'a [u8]), NotRead>
    requires { length table.now < CODES_LIMIT }
    ensures { GivesReading (λ x. (x.0, x.1.now)) result
        (headers_at (map (λ name. name.now) table.now) absent_names rest.now) }
{
    let (count, after) = next_int(rest)?;
    if count > 100 {
        return Err(refused(RefusalKind::TooMany, rest));
    }
    next_header_list(alloc, table, absent_names, count, after)
}
