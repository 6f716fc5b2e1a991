//! Answered requests, as rows write them.

use check_rows::texts::{bytes_of, number};
use jk_io::{Bytes, NoMemory};
use lb_model::{Asked, RowSink, Served};
use std::alloc::Global;

fn worker_of(alloc: Global, name: &str) -> Result<Option<Bytes>, NoMemory> {
    if name == "-" {
        return Ok(None);
    }
    Ok(Some(bytes_of(alloc, name)?))
}

fn asked_of(alloc: Global, method: &str, target: &str, version: &str) -> Result<Asked, NoMemory> {
    if method == "refused" {
        return Ok(Asked::Refused);
    }
    Ok(Asked::Line {
        method: bytes_of(alloc, method)?,
        target: bytes_of(alloc, target)?,
        old: version == "1.0",
    })
}

/// `METHOD TARGET VERSION STATUS BODY WORKER`; a refused head has the method `refused`.
fn served_of(alloc: Global, row: &str) -> Result<Served, NoMemory> {
    let mut words = row.split(' ');
    let method = words.next().unwrap_or("");
    let target = words.next().unwrap_or("");
    let version = words.next().unwrap_or("");
    let status = words.next().unwrap_or("");
    let body = words.next().unwrap_or("");
    let worker = words.next().unwrap_or("-");
    Ok(Served {
        asked: asked_of(alloc, method, target, version)?,
        status: u16::try_from(number(status)).unwrap_or(0),
        body: number(body),
        worker: worker_of(alloc, worker)?,
    })
}

fn put_row<W: RowSink>(alloc: Global, row: &str, sink: &mut W) -> Result<(), NoMemory> {
    let served = served_of(alloc, row)?;
    sink.room()?;
    sink.put(served);
    Ok(())
}

/// Puts each request of a list into a sink of rows.
pub fn put_rows<W: RowSink>(alloc: Global, rows: &str, sink: &mut W) -> Result<(), NoMemory> {
    for row in rows.split(" & ") {
        put_row(alloc, row, sink)?;
    }
    Ok(())
}
