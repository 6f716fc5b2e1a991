//! `log`: the log of one session over what its files say.
ghost use Rattle.std.specs.Prelude.{◌≡◌, ◌⊎◌, List, [], ◌∷◌, IfOk, IsErrOf, None};
ghost use Rattle.jk_cli.specs.declared.order.Order.TheVariants as order;
ghost use Rattle.plain_commands.specs.Causes.{IsJustCaused};
ghost use Rattle.plain_commands.specs.Endings.{LogOfFiles, PrintsOfFiles, log_readings, status_of};
ghost use Rattle.plain_commands.specs.Plain.{LogOf, LogOver};
ghost use Rattle.request_log.specs.Formats.{IsFormat, refusal_line as line_of_refusal};
ghost use Rattle.request_log.specs.declared.format.Part.{Part as AnyPart};
ghost use Rattle.site_reports.specs.Readings.{File};

use crate::answered::{PlainAnswer, alone, printed, too_long};
use crate::play::{Ending, Output};
use crate::session::log_report::report_log;
use crate::session::report::Wire;
use crate::texts::read_pair;
use jk_io::{Bytes, Files, IoError};
use request_log::{Format, FormatError, read_format, refusal_line};
use std::alloc::Global;

/// The names of the files of `log`.
#[derive(Clone, Copy)]
pub(crate) struct LogNames<'t> {
    pub request: &'t Bytes,
    pub reply: &'t Bytes,
    pub workers: &'t Bytes,
    pub map: &'t Bytes,
}

// The log of a session of two texts, over the site of two files.
fn log_site<F: Files>(
    alloc: Global,
    files: &mut F,
    format: &Format,
    wire: Wire<'_>,
    names: &LogNames<'_>,
) -> Result<PlainAnswer, IoError>
    ensures ok { IfOk result (λ o. PrintsOfFiles (F.files files.old) (File names.now.workers.now ∷ File names.now.map.now ∷ [])
        (LogOver format.now wire.entry.request.now wire.entry.reply.now) o) }
    ensures cause { IsJustCaused (F.faults files.old) (F.faults files.new) result }
{
    match read_pair(alloc, files, names.workers, names.map)? {
        None => too_long(alloc),
        Some((workers, map)) => printed(report_log(alloc, workers, map, wire, format)),
    }
}

// The log of a session, over four files.
fn log_over<F: Files>(
    alloc: Global,
    files: &mut F,
    format: &Format,
    names: &LogNames<'_>,
) -> Result<PlainAnswer, IoError>
    ensures ok { IfOk result (λ o. PrintsOfFiles (F.files files.old) (log_readings names.now) (LogOf format.now) o) }
    ensures cause { IsJustCaused (F.faults files.old) (F.faults files.new) result }
{
    match read_pair(alloc, files, names.request, names.reply)? {
        None => too_long(alloc),
        Some((request, reply)) => {
            let wire = Wire {
                request: request.as_slice(),
                reply: reply.as_slice(),
            };
            log_site(alloc, files, format, wire, names)
        }
    }
}

// A format is refused at this place.
fn format_refused(alloc: Global, at: u64) -> Result<PlainAnswer, IoError>
    ensures ok { IfOk result (λ a. (a.output.text ≡ line_of_refusal at) × (status_of a.output.ending ≡ 3) × (a.site ≡ None)) }
    ensures failed { IsErrOf result IoError.Failed → ⊥ }
{
    Ok(alone(Output {
        text: refusal_line(alloc, at)?,
        ending: Ending::Refused,
    }))
}

/// `log`
pub(crate) fn log<F: Files>(
    alloc: Global,
    files: &mut F,
    format: &Bytes,
    names: &LogNames<'_>,
) -> Result<PlainAnswer, IoError>
    ensures ok { IfOk result (λ o. LogOfFiles (F.files files.old)
        (order.Log format.now names.now.request.now names.now.reply.now names.now.workers.now names.now.map.now) o) }
    ensures cause { IsJustCaused (F.faults files.old) (F.faults files.new) result }
    ensures format { (files.new ≡ files.old) ⊎ ((parts : List AnyPart) × IsFormat format.now parts) }
{
    match read_format(alloc, format.as_slice()) {
        Ok(format) => log_over(alloc, files, &format, names),
        Err(FormatError::BadFormat { at }) => format_refused(alloc, at),
        Err(FormatError::NoMemory) => Err(IoError::NoMemory),
    }
}
