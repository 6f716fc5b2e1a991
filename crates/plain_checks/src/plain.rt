//! The plain commands over files, input and output in memory.
use crate::words::let_go;
use check_rows::comparing::wants;
use check_rows::row::{BlockRow, RowError};
use jk_cli::{Order, WordsError, read_words};
use jk_io::{Bytes, Files, MemFiles, MemLink, NoMemory, NumberList, Sink, Source};
use plain_commands::{PlainEnd, PlainRun, run_plain};
use std::alloc::Global;

/// The end of words that no command is done of.
fn without_site(end: PlainEnd) -> PlainRun {
    PlainRun { end, site: None }
}

/// Does a command, and lets its order go.
fn do_order<F: Files, S: Source, O: Sink>(
    alloc: Global,
    order: Order,
    files: &mut F,
    input: &mut S,
    out: &mut O,
) -> PlainRun {
    run_plain(alloc, &order, files, input, out)
}

/// Does the command of the words, where they are one, and answers how it ended.
pub fn do_words<F: Files, S: Source, O: Sink>(
    alloc: Global,
    words: &[Bytes],
    files: &mut F,
    input: &mut S,
    out: &mut O,
) -> PlainRun {
    match read_words(alloc, words) {
        Ok(order) => do_order(alloc, order, files, input, out),
        Err(WordsError::Bad) => without_site(PlainEnd::NoCommand),
        Err(WordsError::NoMemory) => without_site(PlainEnd::NoMemory),
    }
}

/// Whether the status of a command, the bytes that its input gave and what it wrote are as its row says.
fn wants_command(
    alloc: Global,
    row: BlockRow<'_>,
    status: u8,
    reads: u64,
    written: &[u8],
) -> Result<bool, RowError> {
    let is_status = row.number(alloc, "status")?.unwrap_or(0) == u64::from(status);
    let is_read = row.number(alloc, "reads")?.unwrap_or(reads) == reads;
    Ok(is_status && is_read && wants(alloc, row, written)?)
}

fn push(numbers: &mut NumberList, number: u64) -> Result<(), NoMemory> {
    numbers.push(number)?;
    Ok(())
}

/// An output that takes all, or what is wanted and no more.
fn output_of(alloc: Global, row: BlockRow<'_>) -> Result<MemLink, RowError> {
    let mut failing = NumberList::new(alloc);
    if row.value("output-fails").is_some() {
        let output = row.text(alloc, "output", 0)?;
        push(&mut failing, output.len() as u64)?;
    }
    Ok(MemLink::failing_at(alloc, Bytes::new(alloc), NumberList::new(alloc), failing)?)
}

/// The input of a row.
pub fn input_of(alloc: Global, row: BlockRow<'_>) -> Result<MemLink, RowError> {
    let failing = row.numbers(alloc, "input-fails")?;
    let input = row.text(alloc, "input", 0)?;
    Ok(MemLink::failing_at(alloc, input, failing, NumberList::new(alloc))?)
}

/// The files of a row.
pub fn files_of(alloc: Global, row: BlockRow<'_>) -> Result<MemFiles, RowError> {
    let failing = row.numbers(alloc, "file-fails")?;
    let files = row.files(alloc)?;
    Ok(MemFiles::new(files, failing))
}

fn over_input(
    alloc: Global,
    row: BlockRow<'_>,
    words: &[Bytes],
    files: &mut MemFiles,
    input: &mut MemLink,
) -> Result<bool, RowError> {
    let mut out = output_of(alloc, row)?;
    let PlainRun { end, site } = do_words(alloc, words, files, input, &mut out);
    let_go(site);
    let reads = input.received().len() as u64;
    wants_command(alloc, row, end.status(), reads, out.sent())
}

fn over_files(
    alloc: Global,
    row: BlockRow<'_>,
    words: &[Bytes],
    files: &mut MemFiles,
) -> Result<bool, RowError> {
    over_input(alloc, row, words, files, &mut input_of(alloc, row)?)
}

fn over_words(alloc: Global, row: BlockRow<'_>, words: &[Bytes]) -> Result<bool, RowError> {
    over_files(alloc, row, words, &mut files_of(alloc, row)?)
}

/// Whether a command does what its row says.
pub fn holds(alloc: Global, row: BlockRow<'_>) -> Result<bool, RowError> {
    over_words(alloc, row, row.words(alloc)?.as_slice())
}
