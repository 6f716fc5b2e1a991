//! Each row of a file, done once for each of its lines `with`.
use crate::files::{print_count, read_rows};
use crate::row::{BlockRow, RowError};
use crate::texts::With;
use anyhow::Result as Judged;
use jk_io::NoMemory;
use std::alloc::Global;
use std::fmt::Write;
use std::rt::Files;

/// What the rows of a file are about.
pub trait Area {
    /// Does a row once, shows what comes out otherwise than it says, and answers how much comes out as it says.
    fn judge(&self, alloc: Global, row: BlockRow<'_>, shown: &mut String) -> Result<u64, RowError>;
}

/// The texts that stand for `\1` and `\2`.
fn with_of(line: &str) -> With<'_> {
    match line.split_once(" => ") {
        Some((first, second)) => With { first, second },
        None => With {
            first: line,
            second: "",
        },
    }
}

/// 1 where a row comes out as it says; else 0, and it is shown with what came out.
pub fn count_row(
    row: BlockRow<'_>,
    fits: bool,
    told: &str,
    shown: &mut String,
) -> Result<u64, NoMemory> {
    if fits {
        return Ok(1);
    }
    let (name, first) = (row.name(), row.with.first);
    write!(
        shown,
        "not as wanted: {name} {first}\n  but it gives {told}\n"
    )?;
    Ok(0)
}

/// Does a row once; one that can't be read doesn't come out as it says.
fn judge_once<A: Area>(
    alloc: Global,
    area: &A,
    row: BlockRow<'_>,
    shown: &mut String,
) -> Result<u64, NoMemory> {
    match area.judge(alloc, row, shown) {
        Ok(fits) => Ok(fits),
        Err(RowError::Unreadable) => count_row(row, false, "nothing", shown),
        Err(RowError::NoMemory) => Err(NoMemory),
    }
}

/// Does the row of these lines once for each line `with`.
fn judge_each<A: Area>(
    alloc: Global,
    area: &A,
    lines: &str,
    withs: &str,
    shown: &mut String,
) -> Result<u64, NoMemory> {
    let mut fits = 0u64;
    for with in withs.split("\nwith ") {
        let with = with_of(with.lines().next().unwrap_or(""));
        let row = BlockRow { lines, with };
        fits = fits.saturating_add(judge_once(alloc, area, row, shown)?);
    }
    Ok(fits)
}

/// Does a row once for each of its lines `with`, which stand last, or once where it has none.
fn judge_row<A: Area>(
    alloc: Global,
    area: &A,
    text: &str,
    shown: &mut String,
) -> Result<u64, NoMemory> {
    match text.split_once("\nwith ") {
        Some((lines, withs)) => judge_each(alloc, area, lines, withs, shown),
        None => judge_once(alloc, area, BlockRow::new(text), shown),
    }
}

/// Does each row of a text, shows what comes out otherwise, and answers how much comes out as the rows say.
fn judge_rows<A: Area>(
    alloc: Global,
    area: &A,
    text: &str,
    shown: &mut String,
) -> Result<u64, NoMemory> {
    let mut fits = 0u64;
    for row in text.split("\nrow ").skip(1) {
        fits = fits.saturating_add(judge_row(alloc, area, row, shown)?);
    }
    Ok(fits)
}

fn judge_text<A: Area, R: Print + AllocGlobal>(
    rt: &R,
    file: &str,
    unit: &str,
    area: &A,
    text: &str,
) -> Judged<()> {
    let mut shown = String::new(rt.alloc());
    let fits = judge_rows(rt.alloc(), area, text, &mut shown)?;
    print_count(rt, shown.as_str(), fits, unit, file)
}

/// Does each row of a file, and shows what comes out otherwise, and how many rows or lines, as `unit` says, come out as they say.
pub fn judge_file<A: Area, R: Print + AllocGlobal + Files>(
    rt: &R,
    file: &str,
    unit: &str,
    area: &A,
) -> Judged<()> {
    judge_text(rt, file, unit, area, read_rows(rt, file)?.as_str())
}
