//! The area of the plain commands: the subject of their rows.

use crate::{plain, values};
use anyhow::Result;
use check_rows::judging::{Area, count_row, judge_file};
use check_rows::row::{BlockRow, RowError};
use std::alloc::Global;
use std::rt::Files;

/// The plain commands, the calls below them, and the words of all commands.
#[derive(Clone, Copy)]
struct Commands;

impl Area for Commands {
    fn judge(&self, alloc: Global, row: BlockRow<'_>, shown: &mut String) -> Result<u64, RowError> {
        let holds = match row.value("kind") {
            None => plain::holds(alloc, row)?,
            Some(kind) => values::holds(alloc, row, kind)?,
        };
        Ok(count_row(row, holds, "something else", shown)?)
    }
}

/// The files of rows.
static FILES: [&str; 15] = [
    "plain/scripts.txt",
    "plain/refused.txt",
    "plain/faults.txt",
    "plain/plays.txt",
    "plain/steps.txt",
    "plain/sites.txt",
    "plain/workers.txt",
    "plain/maps.txt",
    "plain/marks.txt",
    "plain/dry.txt",
    "plain/checks.txt",
    "plain/follows.txt",
    "plain/logs.txt",
    "plain/told.txt",
    "plain/words.txt",
];

/// Shows each row that comes out otherwise, and how many of each file come out as they say.
pub fn judge<R: Print + AllocGlobal + Files>(rt: &R) -> Result<()> {
    for file in &FILES {
        judge_file(rt, file, "rows", &Commands)?;
    }
    Ok(())
}
