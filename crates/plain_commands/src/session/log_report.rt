//! The log of one session over memory.
ghost use Rattle.std.specs.Prelude.{◌≤◌, length, IfOk};
ghost use Rattle.jk_io.specs.declared.whole_input.TheConstants.{MAX_INPUT_BYTES};
ghost use Rattle.site_reports.specs.Found.{FindsSite, PrintsSite, is_refused};
ghost use Rattle.plain_commands.specs.Dry.{Logs, ReportsLog};

use crate::session::report::{Wire, with_reach};
use jk_io::{Bytes, NoMemory};
use request_log::{Format, log_text};
use site_reports::{
    AcceptedSite, Report, SiteFound, judge_site, map_refusal_text, workers_refusal_text,
};
use std::alloc::Global;
use std::marker::Brand;

// The log of a session over this site.
fn of_site(
    alloc: Global,
    site: &AcceptedSite,
    wire: Wire<'_>,
    format: &Format,
) -> Result<Bytes, NoMemory>
    ensures { IfOk result (Logs site.now.workers.config site.now.rules format.now wire.entry.request.now wire.entry.reply.now) }
{
    let ran = with_reach::<Brand>(alloc, site, wire.request, wire.reply)?;
    Ok(log_text(alloc, format, &ran.rows)?)
}

// What is printed over what was found of a site's files.
fn log_over(
    alloc: Global,
    found: &SiteFound,
    wire: Wire<'_>,
    format: &Format,
) -> Result<Bytes, NoMemory>
    ensures { IfOk result (PrintsSite (λ c rules out. Logs c rules format.now wire.entry.request.now wire.entry.reply.now out) found.now) }
{
    match found {
        SiteFound::Workers(_) => Ok(Bytes::new(alloc)),
        SiteFound::Site(site) => of_site(alloc, site, wire, format),
        SiteFound::WorkersRefused(r) => workers_refusal_text(alloc, r.refusal),
        SiteFound::MapRefused(r) => map_refusal_text(alloc, r.refusal),
    }
}

/// What `log` prints: the log of a session, or the line of the first refusal of the site's files.
pub(crate) fn report_log(
    alloc: Global,
    workers: Bytes,
    map: Bytes,
    wire: Wire<'_>,
    format: &Format,
) -> Result<Report, NoMemory>
    requires short { (length workers ≤ MAX_INPUT_BYTES) × (length map ≤ MAX_INPUT_BYTES) }
    ensures text { IfOk result (λ r. ReportsLog format.now wire.entry.request.now wire.entry.reply.now workers map r.text (is_refused r.found)) }
    ensures found { IfOk result (λ r. FindsSite workers map r.found) }
{
    let found = judge_site(alloc, workers, map)?;
    let text = log_over(alloc, &found, wire, format)?;
    Ok(Report { text, found })
}
