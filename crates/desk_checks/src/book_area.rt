//! The area of Books: the subject of each file of rows.

use crate::{books, queries};
use anyhow::Result;
use check_rows::judging::{self, judge_file};
use check_rows::row::{BlockRow, RowError};
use std::alloc::Global;
use std::rt::Files;

/// What the rows of a file are about.
enum Subject {
    Books,
    Queries,
}

static FILES: [(&str, Subject); 4] = [
    ("book/books.txt", Subject::Books),
    ("book/pairs.txt", Subject::Books),
    ("book/pages.txt", Subject::Books),
    ("book/queries.txt", Subject::Queries),
];

impl judging::Area for Subject {
    fn judge(&self, alloc: Global, row: BlockRow<'_>, shown: &mut String) -> Result<u64, RowError> {
        Ok(match self {
            Subject::Books => books::judge(alloc, row.lines, shown)?,
            Subject::Queries => queries::judge(alloc, row.lines, shown)?,
        })
    }
}

/// Shows each line that is told otherwise, and how many of each file are told as they say.
pub fn judge_books<R: Print + AllocGlobal + Files>(rt: &R) -> Result<()> {
    for (file, subject) in &FILES {
        judge_file(rt, file, "lines", subject)?;
    }
    Ok(())
}
