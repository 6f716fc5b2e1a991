//! Each row of each file, done once.

use crate::{meeting, serving};
use anyhow::Result;
use check_rows::comparing::wants;
use check_rows::files::{print_count, read_rows};
use check_rows::row::{BlockRow, RowError};
use check_rows::telling::put_plain;
use check_rows::texts::With;
use jk_io::{Bytes, NoMemory};
use std::alloc::Global;
use std::fmt::Write;
use std::rt::Files;
use std::sync::Wait;
use std::thread::Threads;
use std::time::Clock;

/// The files of rows.
static FILES: [&str; 8] = [
    "serve/words.txt",
    "serve/serving.txt",
    "serve/faults.txt",
    "serve/places.txt",
    "serve/logs.txt",
    "serve/watch.txt",
    "serve/drills.txt",
    "serve/meeting.txt",
];

/// What comes out of a row.
fn told<R: Threads + Wait + Clock + Sync>(
    rt: &R,
    alloc: Global,
    row: BlockRow<'_>,
) -> Result<Bytes, RowError> {
    if row.count("meeting") > 0 {
        return meeting::told(rt, alloc, row);
    }
    serving::told(rt, alloc, row)
}

/// Whether a row wants what came out of it. Shows what came out where it doesn't.
fn is_wanted<R: Threads + Wait + Clock + Sync>(
    rt: &R,
    alloc: Global,
    row: BlockRow<'_>,
    shown: &mut String,
) -> Result<bool, RowError> {
    let told = told(rt, alloc, row)?;
    if wants(alloc, row, told.as_slice())? {
        return Ok(true);
    }
    put_plain(shown, told.as_slice())?;
    Ok(false)
}

/// Whether a row comes out as it says; not, where it can't be read. Shows what came out otherwise.
fn is_held<R: Threads + Wait + Clock + Sync>(
    rt: &R,
    alloc: Global,
    lines: &str,
    shown: &mut String,
) -> Result<bool, NoMemory> {
    let with = With {
        first: "",
        second: "",
    };
    let row = BlockRow { lines, with };
    match is_wanted(rt, alloc, row, shown) {
        Ok(wanted) => Ok(wanted),
        Err(RowError::Unreadable) => Ok(false),
        Err(RowError::NoMemory) => Err(NoMemory),
    }
}

/// Does a row, shows it where it comes out otherwise, and answers how many rows come out as they say, 1 or 0.
fn judge_row<R: Threads + Wait + Clock + Sync>(
    rt: &R,
    alloc: Global,
    lines: &str,
    shown: &mut String,
) -> Result<u64, NoMemory> {
    let mut told = String::new(alloc);
    if is_held(rt, alloc, lines, &mut told)? {
        return Ok(1);
    }
    let name = lines.lines().next().unwrap_or("");
    write!(
        shown,
        "not as wanted: {name}\n  but it gives {}\n",
        told.as_str()
    )?;
    Ok(0)
}

/// Does each row of a text, shows those that come out otherwise, and answers how many come out as they say. (A trait's method
/// knows nothing of what its threads share, so these rows have no `Area`.)
fn judge_rows<R: Threads + Wait + Clock + Sync>(
    rt: &R,
    alloc: Global,
    text: &str,
    shown: &mut String,
) -> Result<u64, NoMemory> {
    let mut fits = 0u64;
    for lines in text.split("\nrow ").skip(1) {
        fits = fits.saturating_add(judge_row(rt, alloc, lines, shown)?);
    }
    Ok(fits)
}

fn judge_text<R: Threads + Wait + Clock + Sync + Print + AllocGlobal>(
    rt: &R,
    file: &str,
    text: &str,
) -> Result<()> {
    let mut shown = String::new(rt.alloc());
    let rows = judge_rows(rt, rt.alloc(), text, &mut shown)?;
    print_count(rt, shown.as_str(), rows, "rows", file)
}

fn judge_file<R: Threads + Wait + Clock + Sync + Print + AllocGlobal + Files>(
    rt: &R,
    file: &str,
) -> Result<()> {
    judge_text(rt, file, read_rows(rt, file)?.as_str())
}

/// Shows each row that comes out otherwise, and how many of each file come out as they say.
pub fn judge<R: Threads + Wait + Clock + Sync + Print + AllocGlobal + Files>(rt: &R) -> Result<()> {
    for file in &FILES {
        judge_file(rt, file)?;
    }
    Ok(())
}
