//! A row, done once.
use check_rows::comparing::wants;
use check_rows::row::{BlockRow, RowError};
use check_rows::telling::put_plain;
use check_rows::texts::With;
use jk_io::{Bytes, NoMemory};
use std::alloc::Global;
use std::fmt::Write;

/// Shows a row, and what came out of it.
fn show(row: BlockRow<'_>, told: &[u8], shown: &mut String) -> Result<(), NoMemory> {
    let name = row.lines.lines().next().unwrap_or("");
    write!(shown, "not as wanted: {name}\n  but it gives ")?;
    put_plain(shown, told)?;
    shown.push('\n')?;
    Ok(())
}

/// Whether a row wants what came out of it. Shows it where it doesn't.
fn is_wanted(
    alloc: Global,
    row: BlockRow<'_>,
    told: &[u8],
    shown: &mut String,
) -> Result<bool, RowError> {
    if wants(alloc, row, told)? {
        return Ok(true);
    }
    show(row, told, shown)?;
    Ok(false)
}

/// A row of these lines.
pub fn row_of(lines: &str) -> BlockRow<'_> {
    let with = With {
        first: "",
        second: "",
    };
    BlockRow { lines, with }
}

/// Whether a row comes out as it says; not, where it couldn't be done. Shows it where it doesn't.
pub fn is_held(
    alloc: Global,
    row: BlockRow<'_>,
    told: Result<Bytes, RowError>,
    shown: &mut String,
) -> Result<bool, NoMemory> {
    let wanted = match told {
        Ok(told) => is_wanted(alloc, row, told.as_slice(), shown),
        Err(error) => Err(error),
    };
    match wanted {
        Ok(wanted) => Ok(wanted),
        Err(RowError::NoMemory) => Err(NoMemory),
        Err(RowError::Unreadable) => {
            show(row, b"nothing", shown)?;
            Ok(false)
        }
    }
}
