//! The session ids of a Cookie line.
ghost use Rattle.std.specs.Prelude.{◌≡◌, ◌++◌, OnOk, IfSome, IfNone, Some, None, option_to_list};
ghost use Rattle.forwarding.specs.Ids.{cookie_id, cookie_ids, unquoted};

use crate::cuts::cut_at;
use crate::ids::IdList;
use jk_io::{Bytes, NoMemory, trim};
use std::alloc::Global;

/// Adds the values of the cookies with this name in a Cookie line.
pub fn add_cookie_ids(
    alloc: Global,
    ids: &mut IdList,
    name: &[u8],
    line: &[u8],
) -> Result<(), NoMemory>
    ensures { OnOk result (ids.new ≡ ids.old ++ cookie_ids name.now line.now) }
{
    let mut rest = line;
    while let Some((part, tail)) = cut_at(rest, b';') {
        add_cookie_id(alloc, ids, name, part)?;
        rest = tail;
    }
    add_cookie_id(alloc, ids, name, rest)
}

fn add_cookie_id(alloc: Global, ids: &mut IdList, name: &[u8], part: &[u8]) -> Result<(), NoMemory>
    ensures { OnOk result (ids.new ≡ ids.old ++ option_to_list (cookie_id name.now part.now)) }
{
    if let Some(value) = cookie_value(name, part) {
        ids.push(Bytes::from_slice(alloc, value)?)?;
    }
    Ok(())
}

/// The value of a cookie, where it has this name.
fn cookie_value<'a>(name: &[u8], part: &'a [u8]) -> Option<&'a [u8]>
    ensures some { IfSome result (λ value. cookie_id name.now part.now ≡ Some value.now) }
    ensures none { IfNone result (cookie_id name.now part.now ≡ None) }
{
    let (found, value) = cut_at(trim(part), b'=')?;
    if found == name {
        Some(without_quotes(value))
    } else {
        None
    }
}

/// The value without a pair of double quotes round it.
fn without_quotes(value: &[u8]) -> &[u8]
    ensures { result.now ≡ unquoted value.now }
{
    match value {
        [b'"', inner @ .., b'"'] => inner,
        _ => value,
    }
}
