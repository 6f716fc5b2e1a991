//! Reports on a site's files, as `config` and `match` print them.
ghost use Rattle.std.specs.Prelude.{◌≡◌, ◌++◌, ◌≤◌, length, IfOk, OnOk};
ghost use Rattle.site_reports.specs.ConfigText.{config_text};
ghost use Rattle.site_reports.specs.Found.{FindsSite, FindsWorkers, PrintsFound, PrintsSite, is_refused, refusing_line};
ghost use Rattle.site_reports.specs.Matches.{match_text};
ghost use Rattle.site_reports.specs.Reports.{ReportsConfig, ReportsMatches, ReportsSite, map_refusal_line, refusal_line, rules_line, workers_refusal_line};
ghost use Rattle.jk_io.specs.declared.whole_input.TheConstants.{MAX_INPUT_BYTES};

use crate::config_text::put_config;
use crate::found::{AcceptedSite, SiteFound};
use crate::judging::{judge_site, judge_workers};
use crate::match_text::put_matches;
use crate::words::put_number;
use jk_io::{Bytes, NoMemory};
use site_config::{Config, PropsRefusal};
use site_mounts::{MapRefusal, UriMap};
use std::alloc::Global;

/// What a command prints of a site's files, and what it found of them.
#[derive(Drop)]
pub struct Report {
    pub text: Bytes,
    pub found: SiteFound,
}

/// The line of a refusal, with its number.
fn refusal_text(alloc: Global, file: &[u8], line: u32, code: u8) -> Result<Bytes, NoMemory>
    ensures { IfOk result (λ text. text ≡ refusal_line file.now (record { line = line; code = code })) }
{
    let mut text = Bytes::new(alloc);
    text.extend(file)?;
    put_number(&mut text, b" line ", u64::from(line))?;
    put_number(&mut text, b": refusal ", u64::from(code))?;
    text.extend(b"\n")?;
    Ok(text)
}

/// The first refusal of a workers.properties.
pub fn workers_refusal_text(alloc: Global, refusal: PropsRefusal) -> Result<Bytes, NoMemory>
    ensures { IfOk result (λ text. text ≡ workers_refusal_line refusal) }
{
    refusal_text(alloc, b"workers", refusal.line, refusal.reason.code())
}

/// The first refusal of a uriworkermap.properties.
pub fn map_refusal_text(alloc: Global, refusal: MapRefusal) -> Result<Bytes, NoMemory>
    ensures { IfOk result (λ text. text ≡ map_refusal_line refusal) }
{
    refusal_text(alloc, b"map", refusal.line, refusal.reason.code())
}

fn put_rules(out: &mut Bytes, map: &UriMap) -> Result<(), NoMemory>
    ensures { OnOk result (out.new ≡ out.old ++ rules_line map.now) }
{
    put_number(out, b"rules ", u64::from(map.rules()))?;
    out.extend(b"\n")
}

fn of_config(alloc: Global, config: &Config) -> Result<Bytes, NoMemory>
    ensures { IfOk result (λ text. text ≡ config_text config.now) }
{
    let mut text = Bytes::new(alloc);
    put_config(&mut text, config)?;
    Ok(text)
}

fn of_rules(alloc: Global, site: &AcceptedSite) -> Result<Bytes, NoMemory>
    ensures { IfOk result (λ text. text ≡ config_text site.now.workers.config ++ rules_line site.now.rules) }
{
    let mut text = Bytes::new(alloc);
    put_config(&mut text, &site.workers.config)?;
    put_rules(&mut text, &site.rules)?;
    Ok(text)
}

fn of_paths(
    alloc: Global,
    site: &AcceptedSite,
    paths: &[u8],
    verbose: bool,
) -> Result<Bytes, NoMemory>
    ensures { IfOk result (λ text. text ≡ match_text site.now.workers.config site.now.rules verbose paths.now) }
{
    let mut text = Bytes::new(alloc);
    put_matches(
        alloc,
        &mut text,
        &site.workers.config,
        &site.rules,
        paths,
        verbose,
    )?;
    Ok(text)
}

/// What `config` prints of what was found.
fn config_of(alloc: Global, found: &SiteFound) -> Result<Bytes, NoMemory>
    ensures { IfOk result (PrintsFound (λ c out. out ≡ config_text c) (λ c rules out. out ≡ config_text c ++ rules_line rules) found.now) }
{
    match found {
        SiteFound::Workers(workers) => of_config(alloc, &workers.config),
        SiteFound::Site(site) => of_rules(alloc, site),
        SiteFound::WorkersRefused(r) => workers_refusal_text(alloc, r.refusal),
        SiteFound::MapRefused(r) => map_refusal_text(alloc, r.refusal),
    }
}

/// What `match` prints of what was found of both files.
fn matches_of(
    alloc: Global,
    found: &SiteFound,
    paths: &[u8],
    verbose: bool,
) -> Result<Bytes, NoMemory>
    ensures { IfOk result (PrintsSite (λ c rules out. out ≡ match_text c rules verbose paths.now) found.now) }
{
    match found {
        SiteFound::Workers(_) => Ok(Bytes::new(alloc)),
        SiteFound::Site(site) => of_paths(alloc, site, paths, verbose),
        SiteFound::WorkersRefused(r) => workers_refusal_text(alloc, r.refusal),
        SiteFound::MapRefused(r) => map_refusal_text(alloc, r.refusal),
    }
}

/// The line that refuses a site's files, by what was found of them; nothing was where one is too long to be judged.
pub fn refusing_line(alloc: Global, found: &Option<SiteFound>) -> Result<Bytes, NoMemory>
    ensures { IfOk result (λ line. line ≡ refusing_line found.now) }
{
    match found {
        Some(SiteFound::WorkersRefused(r)) => workers_refusal_text(alloc, r.refusal),
        Some(SiteFound::MapRefused(r)) => map_refusal_text(alloc, r.refusal),
        Some(SiteFound::Workers(_) | SiteFound::Site(_)) => Ok(Bytes::new(alloc)),
        None => Ok(Bytes::from_slice(alloc, b"too long\n")?),
    }
}

/// What `config` prints of a workers.properties: the lines of its configuration, or of its first refusal.
pub fn report_config(alloc: Global, workers: Bytes) -> Result<Report, NoMemory>
    requires short { length workers ≤ MAX_INPUT_BYTES }
    ensures text { IfOk result (λ r. ReportsConfig workers r.text (is_refused r.found)) }
    ensures found { IfOk result (λ r. FindsWorkers workers r.found) }
{
    let found = judge_workers(alloc, workers)?;
    let text = config_of(alloc, &found)?;
    Ok(Report { text, found })
}

/// What `config` prints of both files: the configuration and the number of its rules, or the line of the first
/// refusal, those of the workers.properties before those of the map.
pub fn report_site(alloc: Global, workers: Bytes, map: Bytes) -> Result<Report, NoMemory>
    requires short { (length workers ≤ MAX_INPUT_BYTES) × (length map ≤ MAX_INPUT_BYTES) }
    ensures text { IfOk result (λ r. ReportsSite workers map r.text (is_refused r.found)) }
    ensures found { IfOk result (λ r. FindsSite workers map r.found) }
{
    let found = judge_site(alloc, workers, map)?;
    let text = config_of(alloc, &found)?;
    Ok(Report { text, found })
}

/// What `match` prints of both files and a list of paths: a line for each path, or that of the first refusal; `-v` makes it
/// verbose.
pub fn report_matches(
    alloc: Global,
    workers: Bytes,
    map: Bytes,
    paths: &[u8],
    verbose: bool,
) -> Result<Report, NoMemory>
    requires short { (length workers ≤ MAX_INPUT_BYTES) × (length map ≤ MAX_INPUT_BYTES) }
    ensures text { IfOk result (λ r. ReportsMatches workers map paths.now verbose r.text (is_refused r.found)) }
    ensures found { IfOk result (λ r. FindsSite workers map r.found) }
{
    let found = judge_site(alloc, workers, map)?;
    let text = matches_of(alloc, &found, paths, verbose)?;
    Ok(Report { text, found })
}
