//! Files that a front wrote.
use crate::telling::put_form;
use check_rows::row::{BlockRow, RowError};
use jk_io::{Bytes, Files, MAX_INPUT_BYTES};
use journal_verdict::{check_journal, put_verdict};
use real_io::RealFiles;
use std::alloc::Global;
use std::fs;
use std::net::Net;
use std::rt::Files as SystemFiles;

/// What a file holds.
pub fn text_in<F: Files>(alloc: Global, files: &mut F, name: &[u8]) -> Result<Bytes, RowError> {
    let name = Bytes::from_slice(alloc, name)?;
    match files.read_file(alloc, &name) {
        Ok(text) => Ok(text),
        Err(_) => Err(RowError::Unreadable),
    }
}

/// What these files hold, one after the other. They are taken away.
fn text_of<R: SystemFiles + Net>(rt: &R, alloc: Global, names: &str) -> Result<Bytes, RowError> {
    let mut all = Bytes::new(alloc);
    for name in names.split(' ') {
        let text = text_in(alloc, &mut RealFiles::new(rt), name.as_bytes())?;
        all.extend(text.as_slice())?;
        if fs::remove_file(rt, name).is_err() {
            return Err(RowError::Unreadable);
        }
    }
    Ok(all)
}

/// Adds the verdict on a journal's text.
fn put_checked(alloc: Global, text: &[u8], out: &mut Bytes) -> Result<(), RowError> {
    if text.len() > MAX_INPUT_BYTES {
        return Err(RowError::Unreadable);
    }
    match check_journal(alloc, text) {
        Ok(verdict) => Ok(put_verdict(out, &verdict)?),
        Err(_) => Err(RowError::Unreadable),
    }
}

/// Adds what is told of the files that a line of a row names, if it names some.
fn put_named<R: SystemFiles + Net>(
    rt: &R,
    alloc: Global,
    line: &str,
    out: &mut Bytes,
) -> Result<(), RowError> {
    let (key, names) = line.split_once(' ').unwrap_or((line, ""));
    match key {
        "kept" => out.extend(text_of(rt, alloc, names)?.as_slice())?,
        "dated" => put_form(text_of(rt, alloc, names)?.as_slice(), out)?,
        "checked" => put_checked(alloc, text_of(rt, alloc, names)?.as_slice(), out)?,
        _ => {}
    }
    Ok(())
}

/// Adds what is told of the files of a row, and takes them away.
pub fn put_files<R: SystemFiles + Net>(
    rt: &R,
    alloc: Global,
    row: BlockRow<'_>,
    out: &mut Bytes,
) -> Result<(), RowError> {
    for line in row.lines.lines() {
        put_named(rt, alloc, line, out)?;
    }
    Ok(())
}
