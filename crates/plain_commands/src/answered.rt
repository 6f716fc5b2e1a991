//! The answer of a plain command before it is written: its output, and the site that it judged.
ghost use Rattle.std.specs.Prelude.{◌≡◌, None, Some, IfOk, IsErrOf};
ghost use Rattle.plain_commands.specs.Endings.{IsTooLong, status_of};
ghost use Rattle.plain_commands.specs.Plain.{status_if};
ghost use Rattle.plain_commands.specs.Printed.{IsPrinted};
ghost use Rattle.site_reports.specs.Found.{is_refused};

use crate::play::{Ending, Output};
use jk_io::{Bytes, IoError, NoMemory};
use site_reports::{Report, SiteFound};
use std::alloc::Global;

/// What a command answers to what it read.
#[derive(Drop)]
pub(crate) struct PlainAnswer {
    pub output: Output,
    /// What it found of the files of a site, where it judged some.
    pub site: Option<SiteFound>,
}

/// The answer of a command that judges no site.
pub(crate) fn alone(output: Output) -> PlainAnswer
    ensures output { result.output ≡ output }
    ensures site { result.site ≡ None }
{
    PlainAnswer { output, site: None }
}

/// The answer to a text beyond the limit.
pub(crate) fn too_long(alloc: Global) -> Result<PlainAnswer, IoError>
    ensures said { IfOk result IsTooLong }
    ensures failed { IsErrOf result IoError.Failed → ⊥ }
{
    let text = Bytes::from_slice(alloc, b"too long\n")?;
    Ok(alone(Output {
        text,
        ending: Ending::Refused,
    }))
}

// How a command ends that found this.
fn ending_of(found: &SiteFound) -> Ending
    ensures { status_of result ≡ status_if (is_refused found.now) }
{
    if found.is_refused() {
        Ending::Refused
    } else {
        Ending::Done
    }
}

fn answer_of(report: Report) -> PlainAnswer
    ensures text { result.output.text ≡ report.text }
    ensures status { status_of result.output.ending ≡ status_if (is_refused report.found) }
    ensures site { result.site ≡ Some report.found }
{
    let Report { text, found } = report;
    let ending = ending_of(&found);
    PlainAnswer {
        output: Output { text, ending },
        site: Some(found),
    }
}

/// What is printed of a report.
pub(crate) fn printed(report: Result<Report, NoMemory>) -> Result<PlainAnswer, IoError>
    ensures ok { IfOk result (IsPrinted report) }
    ensures failed { IsErrOf result IoError.Failed → ⊥ }
{
    Ok(answer_of(report?))
}
