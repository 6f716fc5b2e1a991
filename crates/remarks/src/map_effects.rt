//! Remarks on a map that is accepted: what of it has no effect, and a map without a rule.
ghost use Rattle.std.specs.Prelude.{◌≡◌, ◌++◌, IfOk, OnOk};
ghost use Rattle.remarks.specs.Added.{Adds};
ghost use Rattle.remarks.specs.MapNotices.{empty_words, map_notice, map_notices};
ghost use Rattle.remarks.specs.Remarks.{effect_words};

use crate::explain::{FileLine, put_said};
use crate::remark_out::RemarkOut;
use jk_io::{Bytes, IoError, NoMemory, Sink};
use site_mounts::{MapNote, NoPartEffect, UriMap};
use std::alloc::Global;

/// Adds the notice of a note.
fn put_notice(out: &mut Bytes, file: &[u8], note: &MapNote) -> Result<(), NoMemory>
    ensures { OnOk result (out.new ≡ out.old ++ map_notice file.now note.now) }
{
    let at = FileLine {
        file,
        line: note.line,
    };
    match &note.why {
        NoPartEffect::Exclusion => put_said(
            out,
            at,
            b"",
            b"what follows the ; has no effect on an exclusion",
        ),
        NoPartEffect::StatusWorker => put_said(
            out,
            at,
            b"",
            b"what follows the ; has no effect on a worker of type status",
        ),
        NoPartEffect::ListsNobody(name) => put_said(
            out,
            at,
            name.as_slice(),
            b" names no member and has no effect",
        ),
        NoPartEffect::Unsupported(name) => put_said(
            out,
            at,
            name.as_slice(),
            b" is not supported in a rule and has no effect",
        ),
    }
}

/// Adds the notice of a note. What `buffer` holds before doesn't count.
fn put_buffered<O: Sink + Drop>(
    out: &mut RemarkOut<O>,
    buffer: &mut Bytes,
    file: &[u8],
    note: &MapNote,
) -> Result<(), IoError>
    ensures { Adds result out.old out.new (map_notice file.now note.now) }
{
    buffer.clear();
    put_notice(buffer, file, note)?;
    out.put(buffer.as_slice())
}

/// Adds a line for each note.
fn put_notices<O: Sink + Drop>(
    alloc: Global,
    out: &mut RemarkOut<O>,
    file: &[u8],
    notes: &[MapNote],
) -> Result<(), IoError>
    ensures { Adds result out.old out.new (map_notices file.now notes.now) }
{
    let mut buffer = Bytes::new(alloc);
    for note in notes {
        put_buffered(out, &mut buffer, file, note)?;
    }
    Ok(())
}

/// What is said of a map of which no line has a rule.
fn empty_words(alloc: Global, file: &[u8], rules: &UriMap) -> Result<Bytes, NoMemory>
    ensures { IfOk result (λ said. said ≡ empty_words file.now rules.now) }
{
    let mut said = Bytes::new(alloc);
    if rules.rules() == 0 {
        said.extend(file)?;
        said.extend(b" has no rule, so each request gets 404\n")?;
    }
    Ok(said)
}

/// Adds what a map means that has no rule.
fn put_empty<O: Sink + Drop>(
    alloc: Global,
    out: &mut RemarkOut<O>,
    file: &[u8],
    rules: &UriMap,
) -> Result<(), IoError>
    ensures { Adds result out.old out.new (empty_words file.now rules.now) }
{
    let said = empty_words(alloc, file, rules)?;
    out.put(said.as_slice())
}

/// Adds what of a map of these rules has no effect, and what it means where it has none.
pub(crate) fn put_map_effects<O: Sink + Drop>(
    alloc: Global,
    out: &mut RemarkOut<O>,
    file: &[u8],
    notes: &[MapNote],
    rules: &UriMap,
) -> Result<(), IoError>
    ensures { Adds result out.old out.new (effect_words file.now notes.now rules.now) }
{
    put_notices(alloc, out, file, notes)?;
    put_empty(alloc, out, file, rules)
}
