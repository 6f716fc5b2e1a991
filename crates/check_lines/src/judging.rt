//! The steps of a row, one after the other, and what is told of each.

use check_rows::telling::put_plain;
use check_rows::texts::bytes_of;
use jk_io::{Bytes, NoMemory};
use std::alloc::Global;
use std::fmt::Write;

/// Whoever tells what comes out of a line.
pub trait Teller {
    /// Puts what comes out of it. False where it can't be asked.
    fn tell(&mut self, alloc: Global, asked: &str, out: &mut Bytes) -> Result<bool, NoMemory>;
}

/// Whether a line is a step: it isn't empty, no comment, and none of an input's text.
fn is_step(line: &str) -> bool {
    !line.is_empty() && !line.starts_with('#') && !line.starts_with('|') && line != "input"
}

/// Whether a line is told as it is wanted. Adds what is told of it.
fn tells<T: Teller>(
    alloc: Global,
    teller: &mut T,
    asked: &str,
    wanted: &str,
    told: &mut String,
) -> Result<bool, NoMemory> {
    let mut bytes = Bytes::new(alloc);
    let read = teller.tell(alloc, asked, &mut bytes)?;
    put_plain(told, bytes.as_slice())?;
    Ok(read && bytes_of(alloc, wanted)?.as_slice() == bytes.as_slice())
}

fn show(name: &str, line: &str, told: &str, shown: &mut String) -> Result<(), NoMemory> {
    write!(shown, "row {name}: {line}\n  but it tells {told}\n")?;
    Ok(())
}

/// Shows a line that is told otherwise, and answers how many lines are told as they want, 1 or 0.
pub fn judge_line<T: Teller>(
    alloc: Global,
    teller: &mut T,
    name: &str,
    line: &str,
    shown: &mut String,
) -> Result<u64, NoMemory> {
    let (asked, wanted) = line.split_once(" -> ").unwrap_or((line, line));
    let mut told = String::new(alloc);
    if tells(alloc, teller, asked, wanted, &mut told)? {
        return Ok(1);
    }
    show(name, line, told.as_str(), shown)?;
    Ok(0)
}

/// Has each line of a row told, shows the lines told otherwise, and answers how many are told as they want.
pub fn judge_lines<T: Teller>(
    alloc: Global,
    teller: &mut T,
    row: &str,
    shown: &mut String,
) -> Result<u64, NoMemory> {
    let (name, lines) = row.split_once('\n').unwrap_or((row, ""));
    let mut fits = 0u64;
    for line in lines.lines() {
        if is_step(line) {
            fits = fits.saturating_add(judge_line(alloc, teller, name, line, shown)?);
        }
    }
    Ok(fits)
}
