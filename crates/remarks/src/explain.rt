//! A refused line explained: in words what is wrong with it, and the line as it stands.
ghost use Rattle.std.specs.Prelude.{◌≡◌, ◌++◌, OnOk};
ghost use Rattle.remarks.specs.Explained.{explained_workers, line_at, map_words, said_of, workers_words};

use crate::site_file::SiteFile;
use crate::wanted::wanted_by;
use jk_io::{Bytes, NoMemory, put_decimal};
use site_config::{PropsReason, PropsRefusal, first_line, without_mark};
use site_mounts::MapReason;

/// A line of a file, from 1.
#[derive(Clone, Copy)]
pub(crate) struct FileLine<'t> {
    pub(crate) file: &'t [u8],
    pub(crate) line: u32,
}

/// Adds what is said of a line, in two parts.
pub(crate) fn put_said(
    out: &mut Bytes,
    at: FileLine<'_>,
    first: &[u8],
    second: &[u8],
) -> Result<(), NoMemory>
    ensures { OnOk result (out.new ≡ out.old ++ said_of at.entry.file.now at.entry.line (first.now ++ second.now)) }
{
    out.extend(at.file)?;
    out.extend(b", line ")?;
    put_decimal(out, u128::from(at.line))?;
    out.extend(b": ")?;
    out.extend(first)?;
    out.extend(second)?;
    out.extend(b"\n")
}

/// The line of this number, from 1.
fn line_at(text: &[u8], line: u32) -> &[u8]
    ensures { result.now ≡ line_at text.now line }
{
    let mut left = line.saturating_sub(1);
    let mut rest = without_mark(text);
    while let Some((found, behind)) = first_line(rest) {
        if left == 0 {
            return found;
        }
        left -= 1;
        rest = behind;
    }
    &[]
}

/// What is wrong with a line of a workers.properties.
pub(crate) fn workers_words(reason: PropsReason) -> &'static [u8]
    ensures { result.now ≡ workers_words reason }
{
    match reason {
        PropsReason::NoEquals => {
            b"the line must be KEY=VALUE, or a comment, which begins with #: "
        }
        PropsReason::BadName => b"a worker's name must have letters, digits, - and _ alone: ",
        PropsReason::UnknownWorker => {
            b"a worker in this list has no line worker.NAME.DIRECTIVE=VALUE: "
        }
        PropsReason::BadValue(directive) => wanted_by(directive),
        PropsReason::BadPeriod => b"the value must be a number from 1 to 86400: ",
        PropsReason::TooManyBalancers => b"there must be at most 1024 balancers: ",
        PropsReason::NoAjp13 => b"each worker in this list must be of type ajp13: ",
        PropsReason::NoMembers => { b"a worker of type lb must have members in balance_workers: " }
        PropsReason::TooManyMembers => b"a worker of type lb must have at most 64 members: ",
        PropsReason::TooWide => {
            b"the lbfactors of the members must have a common multiple below 4294967296: "
        }
        PropsReason::BadReference => {
            b"a reference must lead to a worker that has directives, and in no circle: "
        }
    }
}

/// What is wrong with a line of a uriworkermap.properties.
pub(crate) fn map_words(reason: MapReason) -> &'static [u8]
    ensures { result.now ≡ map_words reason }
{
    match reason {
        MapReason::BadPattern => {
            b"the line must be /PATH=WORKER with at most one |, or a comment, which begins with #: "
        }
        MapReason::UnknownWorker => b"the worker must stand in worker.list: ",
        MapReason::BadExtension => {
            b"after the worker must come ;NAME=VALUE, for sticky_ignore a truth value, for disabled and stopped members of it, for reply_timeout milliseconds from 0 to 86400000: "
        }
    }
}

/// Adds what is said of the refusal of a workers.properties.
pub(crate) fn explain_workers(
    out: &mut Bytes,
    workers: &SiteFile<'_>,
    refusal: PropsRefusal,
) -> Result<(), NoMemory>
    ensures { OnOk result (out.new ≡ out.old
        ++ explained_workers workers.now.name.now workers.now.text.now refusal) }
{
    let at = FileLine {
        file: workers.name,
        line: refusal.line,
    };
    let text = line_at(workers.text, refusal.line);
    put_said(out, at, workers_words(refusal.reason), text)
}
