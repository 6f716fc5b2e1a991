//! Remarks on a command that ended, by its status.
ghost use Rattle.std.specs.Prelude.{◌≡◌, ◌≢◌, [], IfOk, IsOk, None, Some, true};
ghost use Rattle.std.specs.Option.{option_copied};
ghost use Rattle.jk_io.specs.Told.{HasCause};
ghost use Rattle.remarks.specs.Added.{Adds, AddsSaid, AddsSome, AddsText};
ghost use Rattle.remarks.specs.Said.{IsLine, SaysEffects, SaysRefused, fault_of, fault_text, too_long_text, unread_name, unread_text};

use crate::input_seen::InputSeen;
use crate::last_read::{long_file, unended_file, unread_file};
use crate::read_file::ReadFile;
use crate::remark_out::RemarkOut;
use crate::site::{put_effects, put_placed, site_place};
use crate::words::said_of_words;
use jk_cli::CommandName;
use jk_io::{Bytes, IoError, MAX_INPUT_BYTES, NoMemory, Sink};
use site_reports::SiteFound;
use std::alloc::Global;

/// A command that ended: its status, what it read, and what it found.
#[derive(Clone, Copy)]
pub struct Ended<'e> {
    /// None where the words are no command.
    pub command: Option<CommandName>,
    /// The words as they were given, of which it is said what is wrong where they are no command.
    pub words: &'e [Bytes],
    pub status: u8,
    /// How each read of a file went, in order.
    pub reads: &'e [ReadFile],
    pub input: InputSeen,
    /// What it found of the files of a site, where it judged some.
    pub site: Option<&'e SiteFound>,
    /// The system's reason, where a file can't be read.
    pub reason: &'e [u8],
}

fn too_long(alloc: Global, name: &[u8]) -> Result<Bytes, NoMemory>
    ensures { IfOk result (λ said. said ≡ too_long_text name.now) }
{
    let mut said = Bytes::from_slice(alloc, b"jkd: ")?;
    said.extend(name)?;
    said.extend(b" is too long: it has more than 67108864 bytes\n")?;
    Ok(said)
}

/// Adds that a file or an input is too long.
fn put_long<O: Sink + Drop>(
    alloc: Global,
    out: &mut RemarkOut<O>,
    name: &[u8],
) -> Result<(), IoError>
    ensures { Adds result out.old out.new (too_long_text name.now) }
{
    let said = too_long(alloc, name)?;
    out.put(said.as_slice())
}

/// Adds why a command refused what it read.
fn put_refusal<O: Sink + Drop>(
    alloc: Global,
    out: &mut RemarkOut<O>,
    ended: &Ended<'_>,
) -> Result<(), IoError>
    ensures { AddsSome result out.old out.new (SaysRefused ended.now) }
{
    if let Some(name) = long_file(ended.reads) {
        return put_long(alloc, out, name);
    }
    if (MAX_INPUT_BYTES as u64) < ended.input.bytes {
        return put_long(alloc, out, b"standard input");
    }
    put_placed(
        alloc,
        out,
        ended.reads,
        ended.site,
        site_place(ended.command),
    )
}

/// What failed: a front that was asked to end answered otherwise, or a file can't be read.
fn fault_of(alloc: Global, ended: &Ended<'_>) -> Result<Bytes, NoMemory>
    ensures { IfOk result (λ said. said ≡ fault_of ended.now) }
{
    match unended_file(ended.command, ended.reads) {
        Some(name) => unended(alloc, name),
        None => unread_of(alloc, ended.reads, ended.input, ended.reason),
    }
}

fn unended(alloc: Global, name: &[u8]) -> Result<Bytes, NoMemory>
    ensures { IfOk result (λ said. said ≡ fault_text (Some name.now) []) }
{
    let mut said = Bytes::from_slice(alloc, b"jkd: ")?;
    said.extend(name)?;
    said.extend(b" didn't answer that its front ended\n")?;
    Ok(said)
}

/// What can't be read.
fn unread_of(
    alloc: Global,
    reads: &[ReadFile],
    input: InputSeen,
    reason: &[u8],
) -> Result<Bytes, NoMemory>
    ensures { IfOk result (λ said. said ≡ unread_text (unread_name reads.now) input.failed reason.now) }
{
    match unread_file(reads) {
        Some(name) => unread(alloc, name, reason),
        None => unread_input(alloc, input.failed),
    }
}

fn unread(alloc: Global, name: &[u8], reason: &[u8]) -> Result<Bytes, NoMemory>
    ensures { IfOk result (λ said. said ≡ unread_text (Some name.now) true reason.now) }
{
    let mut said = Bytes::from_slice(alloc, b"jkd: can't read ")?;
    said.extend(name)?;
    said.extend(b": ")?;
    said.extend(reason)?;
    said.extend(b"\n")?;
    Ok(said)
}

fn unread_input(alloc: Global, failed: bool) -> Result<Bytes, NoMemory>
    ensures { IfOk result (λ said. said ≡ unread_text None failed []) }
{
    if failed {
        Bytes::from_slice(alloc, b"jkd: can't read standard input\n")
    } else {
        Ok(Bytes::new(alloc))
    }
}

/// Adds what failed.
fn put_fault<O: Sink + Drop>(
    alloc: Global,
    out: &mut RemarkOut<O>,
    ended: &Ended<'_>,
) -> Result<(), IoError>
    ensures { Adds result out.old out.new (fault_of ended.now) }
{
    let said = fault_of(alloc, ended)?;
    out.put(said.as_slice())
}

/// Adds what is wrong with words that are no command.
fn put_words<O: Sink + Drop>(
    alloc: Global,
    out: &mut RemarkOut<O>,
    words: &[Bytes],
) -> Result<(), IoError>
    ensures { AddsSome result out.old out.new IsLine }
{
    let said = said_of_words(alloc, words)?;
    out.put(said.as_slice())
}

/// Adds what a person is told of a command that ended, besides what it printed: for status 2 the word at fault; for 3 the
/// file, its line and what is wrong with it, or what is too long; for 4 the file and the system's reason, or the
/// front that didn't answer that it ended; and of `config` what of its files has no effect.
pub fn remarks_on<O: Sink + Drop>(
    alloc: Global,
    out: &mut RemarkOut<O>,
    ended: &Ended<'_>,
) -> Result<(), IoError>
    ensures effects { ended.now.status ≡ 0
        → AddsSaid result out.old.said out.new.said (SaysEffects ended.now.command (option_copied ended.now.site) ended.now.reads.now) }
    ensures words { ended.now.status ≡ 2 → AddsSaid result out.old.said out.new.said IsLine }
    ensures refused { ended.now.status ≡ 3
        → AddsSaid result out.old.said out.new.said (SaysRefused ended.now) }
    ensures failed { ended.now.status ≡ 4
        → AddsText result out.old.said out.new.said (fault_of ended.now) }

    // Of the other statuses nothing is told, also where it ends with an error.
    ensures other { ended.now.status ≢ 0 → ended.now.status ≢ 2 → ended.now.status ≢ 3 → ended.now.status ≢ 4
        → out.new ≡ out.old }
    ensures cause { HasCause out.old.faults out.new.faults result }
    ensures steady { IsOk result → out.new.faults ≡ out.old.faults }
{
    match ended.status {
        0 => put_effects(alloc, out, ended.command, ended.reads, ended.site),
        2 => put_words(alloc, out, ended.words),
        3 => put_refusal(alloc, out, ended),
        4 => put_fault(alloc, out, ended),
        _ => Ok(()),
    }
}
