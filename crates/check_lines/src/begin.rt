//! Openings, as the lines of a journal's text have them: `lb`, `member`, `lease` and `from`.
ghost use Rattle.std.specs.Prelude.{◌≡◌, []};
ghost use Rattle.lb_model.specs.declared.segment.TheConstants.{MODERN_RULES};

use crate::texts::{first_word, put_line};
use jk_io::{Bytes, MAX_INPUT_BYTES, NoMemory};
use journal_text::{TextError, read_segments};
use lb_book::Book;
use lb_model::{LbConfig, Opening, Segment};
use std::alloc::Global;

/// A Book of rules 2.
#[derive(Drop)]
pub struct ModernBook {
    pub book: Book,
    pub ghost modern: { book.rules ≡ MODERN_RULES },
}

/// A Book of rules 2 that no call has changed yet.
#[derive(Drop)]
pub struct FreshBook {
    pub book: Book,
    pub ghost modern: { book.rules ≡ MODERN_RULES },
    pub ghost unasked: { book.added ≡ 0 },
    pub ghost empty: { book.entries ≡ [] },
}

/// Whether a line is one of an opening.
pub fn is_opening_line(line: &str) -> bool {
    let (word, _) = first_word(line);
    word == "lb" || word == "member" || word == "lease" || word == "from"
}

/// The lines of an opening in a row.
fn opening_lines(alloc: Global, row: &str) -> Result<Bytes, NoMemory> {
    let mut text = Bytes::new(alloc);
    for line in row.lines() {
        if is_opening_line(line) {
            put_line(&mut text, line)?;
        }
    }
    Ok(text)
}

/// Puts a journal's text that has this opening and no entry.
fn put_segment(text: &mut Bytes, lines: &[u8]) -> Result<(), NoMemory> {
    text.extend(b"jkj 2\n")?;
    text.extend(lines)?;
    text.extend(b"end 0\n")
}

fn last_segment(alloc: Global, text: &[u8]) -> Result<Option<(Bytes, Segment)>, NoMemory> {
    if text.len() > MAX_INPUT_BYTES {
        return Ok(None);
    }
    match read_segments(alloc, text) {
        Ok(mut segments) => Ok(segments.pop()),
        Err(TextError::Unreadable { .. }) => Ok(None),
        Err(TextError::NoMemory) => Err(NoMemory),
    }
}

fn begun(segment: Option<(Bytes, Segment)>) -> Option<(Bytes, Opening)> {
    let (name, Segment { opening, .. }) = segment?;
    Some((name, opening))
}

/// The balancer's name and the opening that these lines are.
pub fn named_opening(alloc: Global, lines: &[u8]) -> Result<Option<(Bytes, Opening)>, NoMemory> {
    let mut text = Bytes::new(alloc);
    put_segment(&mut text, lines)?;
    Ok(begun(last_segment(alloc, text.as_slice())?))
}

/// The opening that these lines are.
pub fn opening_of(alloc: Global, lines: &[u8]) -> Result<Option<Opening>, NoMemory> {
    match named_opening(alloc, lines)? {
        Some((_, opening)) => Ok(Some(opening)),
        None => Ok(None),
    }
}

fn start_with(
    alloc: Global,
    config: LbConfig,
    at: u64,
    first: u64,
) -> Result<Option<FreshBook>, NoMemory> {
    if first > 1 << 48 {
        return Ok(None);
    }
    let book = Book::start(alloc, config, at, first)?;
    Ok(Some(FreshBook { book }))
}

fn start(alloc: Global, opening: Opening) -> Result<Option<FreshBook>, NoMemory> {
    let Opening {
        config,
        next,
        at,
        ..
    } = opening;
    start_with(alloc, config, at, next)
}

/// A Book that goes on from an opening.
pub fn resume(opening: Opening) -> Result<Option<ModernBook>, NoMemory> {
    let valid = opening.is_valid();
    if !valid {
        return Ok(None);
    }
    let book = Book::resume(opening, 2)?;
    Ok(Some(ModernBook { book }))
}

/// A Book that starts with the configuration, the moment and the number of the opening that these lines are.
pub fn started(alloc: Global, lines: &[u8]) -> Result<Option<FreshBook>, NoMemory> {
    match opening_of(alloc, lines)? {
        Some(opening) => start(alloc, opening),
        None => Ok(None),
    }
}

/// A Book that goes on from the opening that these lines are.
pub fn resumed(alloc: Global, lines: &[u8]) -> Result<Option<ModernBook>, NoMemory> {
    match opening_of(alloc, lines)? {
        Some(opening) => resume(opening),
        None => Ok(None),
    }
}

/// A Book that starts with the opening in a row.
pub fn book_of_row(alloc: Global, row: &str) -> Result<Option<FreshBook>, NoMemory> {
    started(alloc, opening_lines(alloc, row)?.as_slice())
}
