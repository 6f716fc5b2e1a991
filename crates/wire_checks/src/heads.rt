//! Heads and paths.

use check_rows::row::BlockRow;
use check_rows::telling::{part, put_bytes, put_count, put_faults, put_plain, put_shown, put_word};
use check_rows::ways::{Way, link_of};
use http_front::{BodyPlan, Head, HeadError, HeadGot, Inbox, PathError, clean_path, read_head};
use jk_io::{MemLink, NoMemory};
use std::alloc::Global;
use std::fmt::Write;

pub fn tell(
    alloc: Global,
    row: BlockRow<'_>,
    bytes: &[u8],
    way: Way,
    out: &mut String,
) -> Result<(), NoMemory> {
    if row.word("kind") == "path" {
        return tell_path(alloc, bytes, out);
    }
    tell_over(alloc, row, bytes, way, out)
}

fn tell_over(
    alloc: Global,
    row: BlockRow<'_>,
    bytes: &[u8],
    way: Way,
    out: &mut String,
) -> Result<(), NoMemory> {
    tell_client(alloc, row, &mut link_of(alloc, bytes, way)?, out)
}

fn tell_client(
    alloc: Global,
    row: BlockRow<'_>,
    client: &mut MemLink,
    out: &mut String,
) -> Result<(), NoMemory> {
    let inbox = &mut Inbox::new(alloc)?;
    let kind = row.word("kind");
    if kind == "heads" {
        return tell_heads(alloc, row.amount(alloc, "calls")?, inbox, client, out);
    }
    tell_head(alloc, kind == "parts", inbox, client, out)
}

fn tell_path(alloc: Global, raw: &[u8], out: &mut String) -> Result<(), NoMemory> {
    match clean_path(alloc, raw) {
        Ok(clean) => put_bytes(out, clean.as_slice()),
        Err(PathError::BadPath) => put_word(out, "BadPath"),
        Err(PathError::NoMemory) => Err(NoMemory),
    }
}

/// The answer of one call, or the parts of the head that it read.
fn tell_head(
    alloc: Global,
    parts: bool,
    inbox: &mut Inbox,
    client: &mut MemLink,
    out: &mut String,
) -> Result<(), NoMemory> {
    tell_read(alloc, parts, inbox, client, out)?;
    put_faults(out, client.faults())
}

fn tell_read(
    alloc: Global,
    parts: bool,
    inbox: &mut Inbox,
    client: &mut MemLink,
    out: &mut String,
) -> Result<(), NoMemory> {
    put_answer(parts, &read_head(alloc, inbox, client), out)
}

/// The answers of that many calls, and what is left in the inbox.
fn tell_heads(
    alloc: Global,
    calls: u64,
    inbox: &mut Inbox,
    client: &mut MemLink,
    out: &mut String,
) -> Result<(), NoMemory> {
    for _ in 0..calls {
        tell_read(alloc, false, inbox, client, out)?;
        put_word(out, ";")?;
    }
    put_word(out, "left")?;
    put_bytes(out, inbox.as_slice())?;
    put_faults(out, client.faults())
}

fn put_answer(
    parts: bool,
    got: &Result<HeadGot, HeadError>,
    out: &mut String,
) -> Result<(), NoMemory> {
    match got {
        Ok(HeadGot::Head(head)) if parts => put_parts(head, out),
        Ok(HeadGot::Head(head)) => put_head(head, out),
        Ok(HeadGot::End) => put_word(out, "End"),
        Err(HeadError::Refused { status, form }) => {
            put_shown(out, status)?;
            put_shown(out, form)
        }
        Err(error) => put_shown(out, error),
    }
}

/// A head's server and port, its body, and what it says of the connection.
fn put_head(head: &Head, out: &mut String) -> Result<(), NoMemory> {
    let port = head.port;
    part(out)?;
    put_plain(out, head.server.as_slice())?;
    write!(out, " {port}")?;
    match head.plan {
        BodyPlan::None => {}
        BodyPlan::Exact(length) => put_count(out, "length", length)?,
        BodyPlan::Chunked => put_word(out, "chunked")?,
    }
    put_marks(head.close, head.expect, out)
}

fn put_marks(close: bool, expect: bool, out: &mut String) -> Result<(), NoMemory> {
    if close {
        put_word(out, "close")?;
    }
    if expect {
        put_word(out, "expect")?;
    }
    Ok(())
}

/// A head's method, target, path, query, clean path, version and lines.
fn put_parts(head: &Head, out: &mut String) -> Result<(), NoMemory> {
    put_bytes(out, head.method.as_slice())?;
    put_bytes(out, head.target.as_slice())?;
    put_bytes(out, head.path.as_slice())?;
    match &head.query {
        Some(query) => put_bytes(out, query.as_slice())?,
        None => put_word(out, "none")?,
    }
    put_bytes(out, head.clean.as_slice())?;
    put_word(out, if head.old { "1.0" } else { "1.1" })?;
    for (name, value) in head.headers.as_slice() {
        put_bytes(out, name.as_slice())?;
        put_bytes(out, value.as_slice())?;
    }
    Ok(())
}
