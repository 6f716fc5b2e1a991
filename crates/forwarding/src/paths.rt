//! The session ids of a path.
ghost use Rattle.std.specs.Prelude.{◌≡◌, ◌++◌, position, OnOk};
ghost use Rattle.forwarding.specs.Ids.{ends_id, id_here, upto_end, path_ids};

use crate::ids::IdList;
use jk_io::{Bytes, NoMemory};
use std::alloc::Global;

/// Adds the ids that follow a mark in a path, each up to the next `;` or `/`.
pub fn add_path_ids(
    alloc: Global,
    ids: &mut IdList,
    mark: &[u8],
    path: &[u8],
) -> Result<(), NoMemory>
    ensures { OnOk result (ids.new ≡ ids.old ++ path_ids mark.now path.now) }
{
    for at in 0..path.len() {
        add_id_here(alloc, ids, mark, &path[at..])?;
    }
    Ok(())
}

/// Adds the id whose mark stands at the front.
fn add_id_here(alloc: Global, ids: &mut IdList, mark: &[u8], text: &[u8]) -> Result<(), NoMemory>
    ensures { OnOk result (ids.new ≡ ids.old ++ id_here mark.now text.now) }
{
    if !text.starts_with(mark) {
        return Ok(());
    }
    let id = Bytes::from_slice(alloc, id_before_end(&text[mark.len()..]))?;
    ids.push(id)?;
    Ok(())
}

/// The text up to the end of an id.
fn id_before_end(text: &[u8]) -> &[u8]
    ensures { result.now ≡ upto_end text.now }
{
    match end_of_id(text) {
        Some(at) => &text[..at],
        None => text,
    }
}

fn end_of_id(text: &[u8]) -> Option<usize>
    ensures { result ≡ position ends_id text.now }
{
    text.iter().position(|b| *b == b';' || *b == b'/')
}
