//! Files of rows, and what is printed of them.

use anyhow::{Context, Result as Judged};
use std::fs;
use std::rt::Files;

/// The text of a file. An error names the file.
pub fn read_rows<R: AllocGlobal + Files>(rt: &R, file: &str) -> Judged<String> {
    fs::read_to_string(rt, file).context(file)
}

/// Prints what came out otherwise, and how many rows or lines of a file, as `unit` says, came out as they say.
pub fn print_count<R: Print>(
    rt: &R,
    shown: &str,
    count: u64,
    unit: &str,
    file: &str,
) -> Judged<()> {
    println!(rt; "{shown}{count} {unit} of {file} come out as they say")?;
    Ok(())
}

/// Prints a claim, and whether it holds.
pub fn print_claim<R: Print>(rt: &R, claim: &str, holds: bool) -> Judged<()> {
    println!(rt; "{claim}: {holds}")?;
    Ok(())
}
