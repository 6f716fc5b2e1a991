//! Rows of which something is told, over links that go in each of the row's ways.
use crate::judging::{Area, count_row, judge_file};
use crate::row::{BlockRow, RowError};
use crate::telling::put_plain;
use crate::ways::{self, Way, way_of};
use anyhow::Result as Judged;
use jk_io::NoMemory;
use std::alloc::Global;
use std::rt::Files;

/// Whoever tells what comes out of a file's rows.
pub trait RowTeller {
    /// Does what a row says, over a link from which its `bytes` come in this way, and adds what comes out.
    fn tell(
        &self,
        alloc: Global,
        row: BlockRow<'_>,
        bytes: &[u8],
        way: Way,
        out: &mut String,
    ) -> Result<(), NoMemory>;
}

/// The area of a teller: what is told in each way is the row's `output`.
#[derive(Drop)]
struct InWays<'t, T> {
    teller: &'t T,
}

/// The first outcome of a row, over all its ways, that isn't what it wants; else what it wants.
fn tell_in_each_way<T: RowTeller>(
    alloc: Global,
    teller: &T,
    row: BlockRow<'_>,
    bytes: &[u8],
    wanted: &str,
    out: &mut String,
) -> Result<(), NoMemory> {
    for word in row.value("ways").unwrap_or("whole").split(' ') {
        for place in 0..ways::count(word, bytes.len()) {
            out.clear();
            let way = way_of(word, bytes.len(), place);
            teller.tell(alloc, row, bytes, way, out)?;
            if out.as_str() != wanted {
                return Ok(());
            }
        }
    }
    Ok(())
}

/// What a row wants, as it is told.
fn wanted_of(alloc: Global, row: BlockRow<'_>) -> Result<String, RowError> {
    let mut wanted = String::new(alloc);
    put_plain(&mut wanted, row.text(alloc, "output", 0)?.as_slice())?;
    Ok(wanted)
}

impl<'t, T: RowTeller> Area for InWays<'t, T> {
    fn judge(&self, alloc: Global, row: BlockRow<'_>, shown: &mut String) -> Result<u64, RowError> {
        let bytes = row.text(alloc, "bytes", 0)?;
        let wanted = wanted_of(alloc, row)?;
        let mut out = String::new(alloc);
        let bytes = bytes.as_slice();
        tell_in_each_way(alloc, self.teller, row, bytes, wanted.as_str(), &mut out)?;
        let fits = out.as_str() == wanted.as_str();
        Ok(count_row(row, fits, out.as_str(), shown)?)
    }
}

/// Shows each row of a file that comes out otherwise, and how many come out as they say.
pub fn judge_told<T: RowTeller, R: Print + AllocGlobal + Files>(
    rt: &R,
    file: &str,
    teller: &T,
) -> Judged<()> {
    judge_file(rt, file, "rows", &InWays { teller })
}

/// As `judge_told`, for each file, of whose rows the teller beside it tells.
pub fn judge_all_told<T: RowTeller, R: Print + AllocGlobal + Files>(
    rt: &R,
    files: &[(&str, T)],
) -> Judged<()> {
    for (file, teller) in files {
        judge_told(rt, file, teller)?;
    }
    Ok(())
}
