//! Formats, the lines of requests, and logs that break.

use crate::served::put_rows;
use check_rows::row::BlockRow;
use check_rows::telling::{put_bytes, put_count, put_shown, put_word};
use check_rows::texts::{bytes_of, number, numbers_of};
use jk_io::{Bytes, ListOf, MemLink, NoMemory, Peer};
use lb_model::ServedList;
use request_log::{Format, FormatError, LogRows, Times, log_text, read_format, write_log};
use std::alloc::Global;

/// A clock that steps on by so many milliseconds at each look.
#[derive(Drop)]
struct Steps {
    at: Option<u64>,
    by: u64,
}

impl Times for Steps {
    fn millis(&mut self) -> Option<u64> {
        let now = self.at;
        self.at = now.and_then(|at| at.checked_add(self.by));
        now
    }
}

/// What a row's format comes to.
pub fn tell(alloc: Global, row: BlockRow<'_>, out: &mut String) -> Result<(), NoMemory> {
    match read_format(alloc, row.bytes(alloc, "format")?.as_slice()) {
        Ok(format) => tell_log(alloc, &format, row, out),
        Err(FormatError::BadFormat { at }) => put_count(out, "refused at", at),
        Err(FormatError::NoMemory) => Err(NoMemory),
    }
}

fn tell_log(
    alloc: Global,
    format: &Format,
    row: BlockRow<'_>,
    out: &mut String,
) -> Result<(), NoMemory> {
    match row.word("kind") {
        "log" => tell_text(alloc, format, row.word("rows"), out),
        "written" => tell_written(alloc, format, row, out),
        _ => tell_seen(alloc, format, row, out),
    }
}

fn rows_of(alloc: Global, rows: &str) -> Result<ServedList, NoMemory> {
    let mut list = ServedList::new(alloc);
    put_rows(alloc, rows, &mut list)?;
    Ok(list)
}

fn tell_text(alloc: Global, format: &Format, rows: &str, out: &mut String) -> Result<(), NoMemory> {
    let rows = rows_of(alloc, rows)?;
    put_bytes(out, log_text(alloc, format, &rows)?.as_slice())
}

/// A link whose writes fail once after each of these numbers of bytes.
fn link_of(alloc: Global, writes: &str) -> Result<MemLink, NoMemory> {
    MemLink::failing_at(
        alloc,
        Bytes::new(alloc),
        ListOf::new(alloc),
        numbers_of(alloc, writes)?,
    )
}

fn tell_written(
    alloc: Global,
    format: &Format,
    row: BlockRow<'_>,
    out: &mut String,
) -> Result<(), NoMemory> {
    let link = &mut link_of(alloc, row.word("writes"))?;
    tell_write(alloc, format, row.word("rows"), link, out)
}

fn tell_write(
    alloc: Global,
    format: &Format,
    rows: &str,
    link: &mut MemLink,
    out: &mut String,
) -> Result<(), NoMemory> {
    let answer = write_log(alloc, format, &rows_of(alloc, rows)?, link);
    put_bytes(out, link.sent())?;
    put_shown(out, &answer)
}

fn times_of(moments: &str) -> Steps {
    let (at, by) = moments.split_once(' ').unwrap_or(("-", "0"));
    Steps {
        at: if at == "-" { None } else { Some(number(at)) },
        by: number(by),
    }
}

fn greet<T: Times + Drop>(
    alloc: Global,
    log: &mut LogRows<'_, MemLink, T>,
    addr: &str,
) -> Result<(), NoMemory> {
    log.greet(&Peer {
        addr: bytes_of(alloc, addr)?,
    });
    Ok(())
}

fn put_logged(out: &mut String, link: &MemLink, broken: bool) -> Result<(), NoMemory> {
    put_bytes(out, link.sent())?;
    if broken {
        put_word(out, "broken")?;
    }
    Ok(())
}

/// `ADDRESS MILLIS STEP`, each `-` where it isn't known.
fn tell_seen(
    alloc: Global,
    format: &Format,
    row: BlockRow<'_>,
    out: &mut String,
) -> Result<(), NoMemory> {
    let (addr, moments) = row.word("client").split_once(' ').unwrap_or(("", "-"));
    let link = link_of(alloc, row.word("writes"))?;
    let mut log = LogRows::new(alloc, format, link, times_of(moments));
    greet(alloc, &mut log, addr)?;
    put_rows(alloc, row.word("rows"), &mut log)?;
    let broken = log.broken().is_some();
    put_logged(out, &log.into_sink(), broken)
}
