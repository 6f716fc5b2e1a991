//! The comparison of a row with its end.
use crate::row::{BlockRow, RowError};
use std::alloc::Global;

fn contains(text: &[u8], part: &[u8]) -> bool {
    for place in 0..text.len() {
        if text[place..].starts_with(part) {
            return true;
        }
    }
    part.is_empty()
}

fn has_part(
    alloc: Global,
    row: BlockRow<'_>,
    before: usize,
    text: &[u8],
) -> Result<bool, RowError> {
    let part = row.text(alloc, "part", before)?;
    Ok(contains(text, part.as_slice()))
}

fn is_output(alloc: Global, row: BlockRow<'_>, text: &[u8]) -> Result<bool, RowError> {
    let output = row.text(alloc, "output", 0)?;
    Ok(output.as_slice() == text)
}

/// Whether a text is the whole output of a row, or has each of its parts where it has some.
pub fn wants(alloc: Global, row: BlockRow<'_>, text: &[u8]) -> Result<bool, RowError> {
    let parts = row.count("part");
    if parts == 0 {
        return is_output(alloc, row, text);
    }
    for before in 0..parts {
        if !has_part(alloc, row, before, text)? {
            return Ok(false);
        }
    }
    Ok(true)
}
