//! The area of the balancer's values: the subject of each file of rows.

use crate::{indexes, journals, openings, values, verdicts};
use anyhow::Result;
use check_rows::judging::{self, judge_file};
use check_rows::row::{BlockRow, RowError};
use std::alloc::Global;
use std::rt::Files;

/// What the rows of a file are about.
enum Subject {
    Values,
    Indexes,
    Openings,
    Journals,
    Verdicts,
}

static FILES: [(&str, Subject); 5] = [
    ("value/values.txt", Subject::Values),
    ("value/indexes.txt", Subject::Indexes),
    ("value/openings.txt", Subject::Openings),
    ("value/journals.txt", Subject::Journals),
    ("value/verdicts.txt", Subject::Verdicts),
];

impl judging::Area for Subject {
    fn judge(&self, alloc: Global, row: BlockRow<'_>, shown: &mut String) -> Result<u64, RowError> {
        let lines = row.lines;
        Ok(match self {
            Subject::Values => values::judge(alloc, lines, shown)?,
            Subject::Indexes => indexes::judge(alloc, lines, shown)?,
            Subject::Openings => openings::judge(alloc, lines, shown)?,
            Subject::Journals => journals::judge(alloc, row, shown)?,
            Subject::Verdicts => verdicts::judge(alloc, row, shown)?,
        })
    }
}

/// Shows each line that is told otherwise, and how many of each file are told as they say.
pub fn judge<R: Print + AllocGlobal + Files>(rt: &R) -> Result<()> {
    for (file, subject) in &FILES {
        judge_file(rt, file, "lines", subject)?;
    }
    Ok(())
}
