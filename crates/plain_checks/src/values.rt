//! Rows that have a kind.
//!
//! `mount`: the rule of the map `m`, over the workers `w`, that the input takes as its path, and its terms.
//! `find`: the worker of `w` that the input names, and its members' secrets.
//! `properties`: the properties of the input, a line each.
//! `step`: what the input is as a line of a script whose members are a and b.
//! `begin`: the balancer that the input begins with, and where it starts.
//! `load`: how a member with this load is shown.
//! `told`: what a person is told once the command ended.
//! `words` and `help`: words.rt says what is told of them.
use crate::row_text::RowText;
use crate::scripts::{tell_begun, tell_load, tell_step};
use crate::sites::{tell_found, tell_mount, tell_properties};
use crate::told::put_told;
use crate::words::{put_help, put_words};
use check_rows::comparing::wants;
use check_rows::row::{BlockRow, RowError};
use jk_io::NoMemory;
use std::alloc::Global;

/// What is told of an input alone.
fn tell_of_input(
    alloc: Global,
    kind: &str,
    input: &[u8],
    out: &mut RowText,
) -> Result<(), NoMemory> {
    match kind {
        "step" => tell_step(alloc, input, out)?,
        "begin" => tell_begun(alloc, input, out)?,
        "load" => tell_load(alloc, input, out)?,
        "properties" => tell_properties(alloc, input, out),
        _ => out.put(b"no such kind"),
    }
    Ok(())
}

fn put_mount(
    alloc: Global,
    row: BlockRow<'_>,
    path: &[u8],
    out: &mut RowText,
) -> Result<(), RowError> {
    let workers = row.file(alloc, "w")?;
    put_mount_in(alloc, row, path, workers.as_slice(), out)
}

fn put_mount_in(
    alloc: Global,
    row: BlockRow<'_>,
    path: &[u8],
    workers: &[u8],
    out: &mut RowText,
) -> Result<(), RowError> {
    let map = row.file(alloc, "m")?;
    tell_mount(alloc, workers, map.as_slice(), path, out);
    Ok(())
}

fn put_found(
    alloc: Global,
    row: BlockRow<'_>,
    name: &[u8],
    out: &mut RowText,
) -> Result<(), RowError> {
    let workers = row.file(alloc, "w")?;
    tell_found(alloc, workers.as_slice(), name, out);
    Ok(())
}

fn put_of_input(
    alloc: Global,
    row: BlockRow<'_>,
    kind: &str,
    input: &[u8],
    out: &mut RowText,
) -> Result<(), RowError> {
    match kind {
        "mount" => put_mount(alloc, row, input, out),
        "find" => put_found(alloc, row, input, out),
        "told" => put_told(alloc, row, out),
        "words" => put_words(alloc, row, out),
        "help" => put_help(alloc, row, out),
        _ => Ok(tell_of_input(alloc, kind, input, out)?),
    }
}

fn put_value(
    alloc: Global,
    row: BlockRow<'_>,
    kind: &str,
    out: &mut RowText,
) -> Result<(), RowError> {
    let input = row.text(alloc, "input", 0)?;
    put_of_input(alloc, row, kind, input.as_slice(), out)
}

/// Whether what is told is what its row says.
pub fn holds(alloc: Global, row: BlockRow<'_>, kind: &str) -> Result<bool, RowError> {
    let mut out = RowText::new(alloc);
    put_value(alloc, row, kind, &mut out)?;
    wants(alloc, row, out.read()?)
}
