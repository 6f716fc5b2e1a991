//! `dry`: one session over what its files say.
ghost use Rattle.std.specs.Prelude.{[], ◌∷◌, IfOk, IsErrOf};
ghost use Rattle.jk_cli.specs.declared.order.Order.TheVariants as order;
ghost use Rattle.plain_commands.specs.Causes.{IsJustCaused};
ghost use Rattle.plain_commands.specs.Endings.{OfAnswer, PlainOfFiles, PrintsOfFiles};
ghost use Rattle.plain_commands.specs.Plain.{DryOver, DryAlone};
ghost use Rattle.plain_commands.specs.Printed.{PrintsSession};
ghost use Rattle.site_reports.specs.Readings.{File};

use crate::answered::{PlainAnswer, printed, too_long};
use crate::session::report::{DEFAULT_MAP, DEFAULT_WORKERS, Wire, report_dry};
use crate::texts::read_pair;
use jk_io::{Bytes, Files, IoError};
use std::alloc::Global;

// The session of two texts, over the site of no files.
fn dry_alone(alloc: Global, wire: Wire<'_>) -> Result<PlainAnswer, IoError>
    ensures ok { IfOk result (OfAnswer (DryAlone wire.entry.request.now wire.entry.reply.now)) }
    ensures failed { IsErrOf result IoError.Failed → ⊥ }
{
    let workers = Bytes::from_slice(alloc, DEFAULT_WORKERS)?;
    let map = Bytes::from_slice(alloc, DEFAULT_MAP)?;
    printed(report_dry(alloc, workers, map, wire))
}

// The session of two texts, over the site of two files.
fn dry_site<F: Files>(
    alloc: Global,
    files: &mut F,
    wire: Wire<'_>,
    workers: &Bytes,
    map: &Bytes,
) -> Result<PlainAnswer, IoError>
    ensures ok { IfOk result (λ o. PrintsOfFiles (F.files files.old) (File workers.now ∷ File map.now ∷ [])
        (DryOver wire.entry.request.now wire.entry.reply.now) o) }
    ensures cause { IsJustCaused (F.faults files.old) (F.faults files.new) result }
{
    match read_pair(alloc, files, workers, map)? {
        None => too_long(alloc),
        Some((workers, map)) => printed(report_dry(alloc, workers, map, wire)),
    }
}

// The session of two texts, over its site.
fn dry_over<F: Files>(
    alloc: Global,
    files: &mut F,
    wire: Wire<'_>,
    site: &Option<(Bytes, Bytes)>,
) -> Result<PlainAnswer, IoError>
    ensures ok { IfOk result (PrintsSession (F.files files.old) wire.entry.request.now wire.entry.reply.now site.now) }
    ensures cause { IsJustCaused (F.faults files.old) (F.faults files.new) result }
{
    match site {
        None => dry_alone(alloc, wire),
        Some((workers, map)) => dry_site(alloc, files, wire, workers, map),
    }
}

/// `dry`
pub(crate) fn dry<F: Files>(
    alloc: Global,
    files: &mut F,
    request: &Bytes,
    reply: &Bytes,
    site: &Option<(Bytes, Bytes)>,
) -> Result<PlainAnswer, IoError>
    ensures ok { IfOk result (λ o. PlainOfFiles (F.files files.old) (order.Dry request.now reply.now site.now) o) }
    ensures cause { IsJustCaused (F.faults files.old) (F.faults files.new) result }
{
    match read_pair(alloc, files, request, reply)? {
        None => too_long(alloc),
        Some((request, reply)) => {
            let wire = Wire {
                request: request.as_slice(),
                reply: reply.as_slice(),
            };
            dry_over(alloc, files, wire, site)
        }
    }
}
