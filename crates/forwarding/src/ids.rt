//! All session ids of a request.
ghost use Rattle.std.specs.Prelude.{◌≡◌, ◌++◌, if◌then◌else◌, [], IfOk, OnOk, codes};
ghost use Rattle.std.specs.List.{flat_map};
ghost use Rattle.http_front.specs.Fields.{is_named, named};
ghost use Rattle.forwarding.specs.Ids.{ids_of, cookie_ids};

use crate::cookies::add_cookie_ids;
use crate::paths::add_path_ids;
use http_front::Head;
use jk_io::{Bytes, ListOf, NoMemory};
use std::alloc::Global;

/// Session ids in order, each as the client sent it.
pub type IdList = ListOf<Bytes>;

/// The session ids of a request, for a balancer whose sessions stand in a cookie of this name, or in the path after
/// this text and `=`. Ids of the path come first; a request without an id is fresh.
pub fn session_ids(
    alloc: Global,
    head: &Head,
    cookie: &[u8],
    path: &[u8],
) -> Result<IdList, NoMemory>
    ensures ids { IfOk result (λ ids. ids ≡ ids_of head.now cookie.now path.now) }
{
    let mut ids = IdList::new(alloc);
    let mut mark = Bytes::with_capacity(alloc, path.len().saturating_add(1))?;
    mark.extend(path)?;
    mark.push(b'=')?;
    add_path_ids(alloc, &mut ids, mark.as_slice(), head.path.as_slice())?;
    add_line_ids(alloc, &mut ids, cookie, head.headers.as_slice())?;
    Ok(ids)
}

fn add_line_ids(
    alloc: Global,
    ids: &mut IdList,
    cookie: &[u8],
    lines: &[(Bytes, Bytes)],
) -> Result<(), NoMemory>
    ensures { OnOk result (ids.new ≡ ids.old ++ flat_map (cookie_ids cookie.now) (named (codes "cookie") lines.now)) }
{
    for line in lines {
        add_ids_of(alloc, ids, cookie, line)?;
    }
    Ok(())
}

fn add_ids_of(
    alloc: Global,
    ids: &mut IdList,
    cookie: &[u8],
    line: &(Bytes, Bytes),
) -> Result<(), NoMemory>
    ensures { OnOk result (ids.new ≡ ids.old ++ (if is_named (codes "cookie") line.now then cookie_ids cookie.now line.now.1 else [])) }
{
    if !line.0.as_slice().eq_ignore_ascii_case(b"cookie") {
        return Ok(());
    }
    add_cookie_ids(alloc, ids, cookie, line.1.as_slice())
}
