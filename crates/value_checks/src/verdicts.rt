//! Rows of verdicts: what the check of a journal's text says, and which changes of a word leave it good.
ghost use Rattle.std.specs.Prelude.{◌≤◌, length};
ghost use Rattle.jk_io.specs.declared.whole_input.TheConstants.{MAX_INPUT_BYTES};

use check_lines::judging::{Teller, judge_lines};
use check_lines::texts::{first_word, long, put_line, put_number};
use check_rows::row::BlockRow;
use check_rows::texts::bytes_of;
use jk_io::{Bytes, MAX_INPUT_BYTES, NoMemory};
use journal_text::TextError;
use journal_verdict::{Verdict, check_journal, put_verdict};
use std::alloc::Global;
use std::fmt::Write;

/// A row of texts as far as it is taken.
#[derive(Drop)]
struct VerdictRow {
    /// What each text begins with.
    front: Bytes,
    /// Those of its changes that left it good, a line each.
    good: String,
}

/// Puts the line of a verdict, without its LF.
fn put_line_of(alloc: Global, verdict: &Verdict, out: &mut Bytes) -> Result<(), NoMemory> {
    let mut line = Bytes::new(alloc);
    put_verdict(&mut line, verdict)?;
    let text = line.as_slice();
    out.extend(text.strip_suffix(b"\n").unwrap_or(text))
}

/// Puts what is said of a text, and answers whether it is good.
fn tell_verdict(alloc: Global, text: &[u8], out: &mut Bytes) -> Result<bool, NoMemory>
    requires short { length text.now ≤ MAX_INPUT_BYTES }
{
    match check_journal(alloc, text) {
        Ok(verdict) => {
            put_line_of(alloc, &verdict, out)?;
            Ok(matches!(verdict, Verdict::Good { .. }))
        }
        Err(TextError::Unreadable { line }) => {
            put_number(out, "unreadable ", u64::from(line))?;
            Ok(false)
        }
        Err(TextError::NoMemory) => Err(NoMemory),
    }
}

/// Puts what the check of a text says, and answers whether it is good.
fn tell_check(alloc: Global, text: &[u8], out: &mut Bytes) -> Result<bool, NoMemory> {
    if text.len() > MAX_INPUT_BYTES {
        return Ok(false);
    }
    tell_verdict(alloc, text, out)
}

/// Puts what the check of the lines and a text after them says.
fn tell_after(
    alloc: Global,
    front: &Bytes,
    spelled: &str,
    out: &mut Bytes,
) -> Result<bool, NoMemory> {
    let mut text = front.copy()?;
    text.extend(bytes_of(alloc, spelled)?.as_slice())?;
    tell_check(alloc, text.as_slice(), out)
}

/// A word of a text, and what stands in its place; line and word are counted from 0.
#[derive(Clone, Copy)]
struct Change<'a> {
    line: u64,
    word: u64,
    value: &'a str,
}

/// The change that `LINE WORD VALUE` says; both are counted from 1.
fn change_of(words: &str) -> Option<Change<'_>> {
    let (line, rest) = words.split_once(' ')?;
    let (word, value) = rest.split_once(' ')?;
    Some(Change {
        line: long(line)?.checked_sub(1)?,
        word: long(word)?.checked_sub(1)?,
        value,
    })
}

/// Puts a line with the value in the place of the word.
fn put_changed_line(out: &mut Bytes, line: &str, change: Change<'_>) -> Result<(), NoMemory> {
    for (i, word) in line.split(' ').enumerate() {
        if i > 0 {
            out.push(b' ')?;
        }
        let kept = if i as u64 == change.word {
            change.value
        } else {
            word
        };
        out.extend(kept.as_bytes())?;
    }
    out.push(b'\n')
}

/// Puts the lines with the value in the place of the word.
fn put_changed(out: &mut Bytes, front: &str, change: Change<'_>) -> Result<(), NoMemory> {
    for (i, line) in front.lines().enumerate() {
        if i as u64 == change.line {
            put_changed_line(out, line, change)?;
        } else {
            put_line(out, line)?;
        }
    }
    Ok(())
}

/// Puts what the check of the changed lines says, and answers whether they are good.
fn tell_changed(
    alloc: Global,
    front: &Bytes,
    change: Change<'_>,
    out: &mut Bytes,
) -> Result<bool, NoMemory> {
    let mut text = Bytes::new(alloc);
    let front = str::from_utf8(front.as_slice()).unwrap_or("");
    put_changed(&mut text, front, change)?;
    tell_check(alloc, text.as_slice(), out)
}

impl VerdictRow {
    fn tell_but(&mut self, alloc: Global, words: &str, out: &mut Bytes) -> Result<bool, NoMemory> {
        let Some(change) = change_of(words) else {
            return Ok(false);
        };
        if tell_changed(alloc, &self.front, change, out)? {
            write!(self.good, "still good with {words}\n")?;
        }
        Ok(true)
    }
}

impl Teller for VerdictRow {
    fn tell(&mut self, alloc: Global, asked: &str, out: &mut Bytes) -> Result<bool, NoMemory> {
        match first_word(asked) {
            ("check", text) => {
                let _good = tell_after(alloc, &self.front, text, out)?;
                Ok(true)
            }
            ("but", words) => self.tell_but(alloc, words, out),
            _ => Ok(false),
        }
    }
}

/// Shows each line of a row that is told otherwise, and each change that left it good.
pub fn judge(alloc: Global, row: BlockRow<'_>, shown: &mut String) -> Result<u64, NoMemory> {
    let mut teller = VerdictRow {
        front: row.bytes(alloc, "input")?,
        good: String::new(alloc),
    };
    let lines = judge_lines(alloc, &mut teller, row.lines, shown)?;
    shown.push_str(teller.good.as_str())?;
    Ok(lines)
}
