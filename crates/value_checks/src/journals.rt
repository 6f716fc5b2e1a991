//! Rows of journals' texts: what is read of one, and where it can't be read.

use check_lines::judging::{Teller, judge_lines};
use check_lines::texts::{first_word, put_number};
use check_rows::row::BlockRow;
use check_rows::texts::bytes_of;
use jk_io::{Bytes, MAX_INPUT_BYTES, NoMemory};
use journal_text::{SegmentList, TextError, read_segments, write_segment};
use std::alloc::Global;

/// A row of texts.
#[derive(Drop)]
struct TextRow {
    /// What each text begins with.
    front: Bytes,
}

/// Puts the texts of the segments, one after the other.
fn put_segments(text: &mut Bytes, segments: &SegmentList) -> Result<(), NoMemory> {
    for (name, segment) in segments.as_slice() {
        text.extend(write_segment(name.as_slice(), segment)?.as_slice())?;
    }
    Ok(())
}

/// Whether segments are written as this text.
fn are_written_so(alloc: Global, segments: &SegmentList, text: &[u8]) -> Result<bool, NoMemory> {
    let mut again = Bytes::new(alloc);
    put_segments(&mut again, segments)?;
    Ok(again.as_slice() == text)
}

fn count_entries(segments: &SegmentList) -> u64 {
    let mut entries = 0u64;
    for (_, segment) in segments.as_slice() {
        entries = entries.saturating_add(segment.entries.len() as u64);
    }
    entries
}

/// Puts how many segments and entries were read, and whether their text is the same again.
fn tell_segments(
    alloc: Global,
    text: &[u8],
    segments: &SegmentList,
    out: &mut Bytes,
) -> Result<(), NoMemory> {
    put_number(out, "segments ", segments.len() as u64)?;
    put_number(out, " entries ", count_entries(segments))?;
    let same = are_written_so(alloc, segments, text)?;
    out.extend(if same {
        b", the same again"
    } else {
        b", another again"
    })
}

fn tell_text(alloc: Global, text: &[u8], out: &mut Bytes) -> Result<bool, NoMemory> {
    if text.len() > MAX_INPUT_BYTES {
        return Ok(false);
    }
    match read_segments(alloc, text) {
        Ok(segments) => tell_segments(alloc, text, &segments, out)?,
        Err(TextError::Unreadable { line }) => put_number(out, "unreadable ", u64::from(line))?,
        Err(TextError::NoMemory) => return Err(NoMemory),
    }
    Ok(true)
}

fn put_spelled(alloc: Global, text: &mut Bytes, spelled: &str) -> Result<(), NoMemory> {
    text.extend(bytes_of(alloc, spelled)?.as_slice())
}

/// Puts what is read of the lines and a text after them.
fn tell_after(
    alloc: Global,
    front: &Bytes,
    spelled: &str,
    out: &mut Bytes,
) -> Result<bool, NoMemory> {
    let mut text = front.copy()?;
    put_spelled(alloc, &mut text, spelled)?;
    tell_text(alloc, text.as_slice(), out)
}

impl Teller for TextRow {
    fn tell(&mut self, alloc: Global, asked: &str, out: &mut Bytes) -> Result<bool, NoMemory> {
        match first_word(asked) {
            ("read", text) => tell_after(alloc, &self.front, text, out),
            _ => Ok(false),
        }
    }
}

pub fn judge(alloc: Global, row: BlockRow<'_>, shown: &mut String) -> Result<u64, NoMemory> {
    let front = row.bytes(alloc, "input")?;
    judge_lines(alloc, &mut TextRow { front }, row.lines, shown)
}
