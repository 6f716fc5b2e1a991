//! The area of desks: the subject of each file of rows.

use crate::{desks, sites};
use anyhow::Result;
use check_rows::judging::{self, judge_file};
use check_rows::row::{BlockRow, RowError};
use std::alloc::Global;
use std::rt::Files;
use std::sync::Wait;

/// What the rows of a file are about.
#[derive(Clone, Copy)]
enum Rows {
    Sites,
    Desks,
}

/// The rows of a file, and where a desk waits for its lock.
#[derive(Drop)]
struct Subject<'r, R> {
    rt: &'r R,
    rows: Rows,
}

static FILES: [(&str, Rows); 2] = [
    ("desk/sites.txt", Rows::Sites),
    ("desk/desks.txt", Rows::Desks),
];

impl<'r, R: AllocGlobal + Wait> judging::Area for Subject<'r, R> {
    fn judge(
        &self,
        _alloc: Global,
        row: BlockRow<'_>,
        shown: &mut String,
    ) -> Result<u64, RowError> {
        Ok(match self.rows {
            Rows::Sites => sites::judge(self.rt, row.lines, shown)?,
            Rows::Desks => desks::judge(self.rt, row.lines, shown)?,
        })
    }
}

/// Shows each line that is told otherwise, and how many of each file are told as they say.
pub fn judge<R: Print + AllocGlobal + Files + Wait>(rt: &R) -> Result<()> {
    for (file, rows) in &FILES {
        let rows = *rows;
        judge_file(rt, file, "lines", &Subject { rt, rows })?;
    }
    Ok(())
}
