//! Notices of lines that a site of mod_jk would expect to have effect, and that have none, or another one.
ghost use Rattle.std.specs.Prelude.{◌≡◌, ◌++◌, OnOk};
ghost use Rattle.remarks.specs.Added.{Adds};
ghost use Rattle.remarks.specs.Notices.{notice, notices, reason_words, type_words};

use crate::explain::{FileLine, put_said};
use crate::remark_out::RemarkOut;
use jk_io::{Bytes, IoError, NoMemory, Sink};
use site_config::WorkerKind;
use site_reports::{NoEffect, WorkersNote};
use std::alloc::Global;

fn type_words(at: WorkerKind) -> &'static [u8]
    ensures { result.now ≡ type_words at }
{
    match at {
        WorkerKind::Ajp13 => b" has no effect on a worker of type ajp13",
        WorkerKind::Lb => b" has no effect on a worker of type lb",
        WorkerKind::Status => b" has no effect on a worker of type status",
    }
}

/// What is said of a key that has no effect for this.
fn reason_words(why: NoEffect) -> &'static [u8]
    ensures { result.now ≡ reason_words why }
{
    match why {
        NoEffect::Unsupported => b" is not supported and has no effect",
        NoEffect::NoDirective => b" names no directive and has no effect",
        NoEffect::NoWorker => b" does not begin with worker. and has no effect",
        NoEffect::OtherType(at) => type_words(at),
        NoEffect::Users => b" is not supported, so this worker answers each request with 403",
        NoEffect::Again => b" has no effect, since a later line gives it again",
        NoEffect::Redirect => b" names no other member of its balancer and has no effect",
        NoEffect::NoHost => b" is empty, so that no link to it can be dialled",
        NoEffect::Variable => b" has a value with $(, which is taken as it stands",
        NoEffect::Hash => b" has a value with #, which is taken as it stands",
    }
}

/// Adds the notice of a note.
fn put_notice(out: &mut Bytes, file: &[u8], note: &WorkersNote) -> Result<(), NoMemory>
    ensures { OnOk result (out.new ≡ out.old ++ notice file.now note.now) }
{
    let at = FileLine {
        file,
        line: note.line,
    };
    put_said(out, at, note.key.as_slice(), reason_words(note.why))
}

/// Adds the notice of a note. What `buffer` holds before doesn't count.
fn put_buffered<O: Sink + Drop>(
    out: &mut RemarkOut<O>,
    buffer: &mut Bytes,
    file: &[u8],
    note: &WorkersNote,
) -> Result<(), IoError>
    ensures { Adds result out.old out.new (notice file.now note.now) }
{
    buffer.clear();
    put_notice(buffer, file, note)?;
    out.put(buffer.as_slice())
}

/// Adds a line for each note on a workers.properties.
pub(crate) fn put_notices<O: Sink + Drop>(
    alloc: Global,
    out: &mut RemarkOut<O>,
    file: &[u8],
    notes: &[WorkersNote],
) -> Result<(), IoError>
    ensures { Adds result out.old out.new (notices file.now notes.now) }
{
    let mut buffer = Bytes::new(alloc);
    for note in notes {
        put_buffered(out, &mut buffer, file, note)?;
    }
    Ok(())
}
