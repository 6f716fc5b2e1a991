//! Rows on the log of requests and on the watch over idle links.

use crate::{logs, watches};
use anyhow::Result;
use check_rows::row::BlockRow;
use check_rows::told::{RowTeller, judge_told};
use check_rows::ways::Way;
use jk_io::NoMemory;
use std::alloc::Global;
use std::rt::Files;
use std::sync::Wait;

/// The rows, over the locks that pools need.
#[derive(Drop)]
struct Logs<'r, R> {
    rt: &'r R,
}

impl<'r, R: Wait> RowTeller for Logs<'r, R> {
    fn tell(
        &self,
        alloc: Global,
        row: BlockRow<'_>,
        _bytes: &[u8],
        _way: Way,
        out: &mut String,
    ) -> Result<(), NoMemory> {
        match row.word("kind") {
            "judge" => watches::tell(self.rt, alloc, row, out),
            _ => logs::tell(alloc, row, out),
        }
    }
}

/// Shows each row that comes out otherwise, and how many come out as they say.
pub fn judge_logs<R: Print + AllocGlobal + Wait + Files>(rt: &R) -> Result<()> {
    judge_told(rt, "log/logs.txt", &Logs { rt })?;
    judge_told(rt, "log/watches.txt", &Logs { rt })
}
