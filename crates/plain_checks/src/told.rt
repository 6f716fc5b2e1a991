//! The remarks on a row's command, once it ended.
use crate::plain::{do_words, files_of, input_of};
use crate::row_text::RowText;
use check_rows::row::{BlockRow, RowError};
use jk_cli::command_of;
use jk_io::{Bytes, Files, MemFiles, MemLink, NoMemory, NumberList, Sink, Source};
use plain_commands::PlainRun;
use remarks::{CountedInput, Ended, KeptFiles, RemarkOut, remarks_on};
use std::alloc::Global;

/// The reason that stands for the system's.
const REASON: &[u8] = b"the reason";

/// A link from which nothing comes.
fn empty_link(alloc: Global) -> MemLink {
    MemLink::new(alloc, Bytes::new(alloc), NumberList::new(alloc))
}

/// A sink that says what it took.
trait Sent {
    fn sent(&self) -> &[u8];
}

impl Sent for MemLink {
    fn sent(&self) -> &[u8] {
        MemLink::sent(self)
    }
}

/// Adds what is told, which goes through this sink.
fn put_through<O: Sink + Sent + Drop>(
    alloc: Global,
    ended: &Ended<'_>,
    sink: O,
    out: &mut RowText,
) -> Result<(), NoMemory> {
    let mut told = RemarkOut::new(alloc, sink);
    let said = remarks_on(alloc, &mut told, ended).is_ok();
    let (sink, written) = told.finish();
    out.put(sink.sent());
    if said && written.is_ok() {
        Ok(())
    } else {
        Err(NoMemory)
    }
}

fn put_remarks(alloc: Global, ended: &Ended<'_>, out: &mut RowText) -> Result<(), NoMemory> {
    put_through(alloc, ended, empty_link(alloc), out)
}

/// Does a command, lets its output go, and adds what is told of the command.
fn over_input<F: Files + Drop, S: Source + Drop>(
    alloc: Global,
    words: &[Bytes],
    files: &mut KeptFiles<F>,
    input: &mut CountedInput<S>,
    out: &mut RowText,
) -> Result<(), NoMemory> {
    let PlainRun { end, site } = do_words(alloc, words, files, input, &mut empty_link(alloc));
    let site = site.as_ref();
    let ended = Ended {
        command: command_of(words),
        words,
        status: end.status(),
        reads: files.reads(),
        input: input.seen(),
        site,
        reason: REASON,
    };
    put_remarks(alloc, &ended, out)
}

fn over_files(
    alloc: Global,
    row: BlockRow<'_>,
    words: &[Bytes],
    files: &mut KeptFiles<MemFiles>,
    out: &mut RowText,
) -> Result<(), RowError> {
    let mut input = CountedInput::new(input_of(alloc, row)?);
    Ok(over_input(alloc, words, files, &mut input, out)?)
}

/// Adds what is told of the row's command, done over files and input in memory.
pub fn put_told(alloc: Global, row: BlockRow<'_>, out: &mut RowText) -> Result<(), RowError> {
    let words = row.words(alloc)?;
    let mut files = KeptFiles::new(alloc, files_of(alloc, row)?);
    over_files(alloc, row, words.as_slice(), &mut files, out)
}
