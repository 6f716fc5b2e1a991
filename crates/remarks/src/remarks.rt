//! Remarks on a site's files: why they are refused, and what of those that are accepted has no effect.
ghost use Rattle.std.specs.Prelude.{◌≡◌, Err};
ghost use Rattle.site_mounts.specs.Lines.{read_text};
ghost use Rattle.site_reports.specs.declared.found.SiteFound.TheVariants as found;
ghost use Rattle.remarks.specs.Explained.{explained_workers};
ghost use Rattle.remarks.specs.Added.{Adds};
ghost use Rattle.remarks.specs.Refused.{refused_lines, wrong_rule};
ghost use Rattle.remarks.specs.Remarks.{IsShortFile, remarks_of, workers_refusals, workers_remarks};

use crate::explain::{explain_workers, map_words, workers_words};
use crate::notices::put_notices;
use crate::refused::{FirstRefused, Judge, put_refused};
use crate::remark_out::RemarkOut;
use crate::site_effects::effects_on;
use crate::site_file::{SiteFile, SiteNames};
use jk_io::{Bytes, IoError, Sink};
use site_config::{Config, PropsRefusal};
use site_mounts::{MapRefusal, Workers};
use site_reports::{
    AcceptedSite, AcceptedWorkers, RefusedMap, RefusedPart, RefusedWorkers, SiteFound,
};
use std::alloc::Global;

/// Adds each line of a map that is refused.
fn put_map_refusals<O: Sink + Drop>(
    alloc: Global,
    out: &mut RemarkOut<O>,
    config: &Config,
    map: &SiteFile<'_>,
    refusal: MapRefusal,
) -> Result<(), IoError>
    requires short { IsShortFile map.now }
    requires first { read_text config.now map.now.text.now ≡ Err refusal }
    ensures { Adds result out.old out.new
        (refused_lines (wrong_rule config.now) map.now.name.now map.now.text.now) }
{
    let workers = Workers::new(alloc, config)?;
    let first = FirstRefused {
        line: refusal.line,
        words: map_words(refusal.reason),
    };
    put_refused(alloc, out, Judge::Map(&workers), map, first)
}

/// Adds what is wrong with the workers of a workers.properties together.
fn put_workers_refusal<O: Sink + Drop>(
    alloc: Global,
    out: &mut RemarkOut<O>,
    workers: &SiteFile<'_>,
    refusal: PropsRefusal,
) -> Result<(), IoError>
    ensures { Adds result out.old out.new
        (explained_workers workers.now.name.now workers.now.text.now refusal) }
{
    let mut said = Bytes::new(alloc);
    explain_workers(&mut said, workers, refusal)?;
    out.put(said.as_slice())
}

/// Adds what is said of a workers.properties that is accepted.
pub(crate) fn put_workers<O: Sink + Drop>(
    alloc: Global,
    out: &mut RemarkOut<O>,
    name: &[u8],
    workers: &AcceptedWorkers,
    effects: bool,
) -> Result<(), IoError>
    ensures { Adds result out.old out.new (workers_remarks effects name.now workers.now.notes) }
{
    if effects {
        put_notices(alloc, out, name, workers.notes.as_slice())
    } else {
        Ok(())
    }
}

/// Adds what is said of an accepted workers.properties, and each line of the map that is refused.
fn put_refused_map<O: Sink + Drop>(
    alloc: Global,
    out: &mut RemarkOut<O>,
    names: &SiteNames<'_>,
    refused: &RefusedMap,
    effects: bool,
) -> Result<(), IoError>
    ensures { Adds result out.old out.new
        (remarks_of effects names.now.workers.now names.now.map.now (found.MapRefused refused.now)) }
{
    put_workers(alloc, out, names.workers, &refused.workers, effects)?;
    let file = SiteFile {
        name: names.map,
        text: refused.text.as_slice(),
    };
    put_map_refusals(alloc, out, &refused.workers.config, &file, refused.refusal)
}

/// Adds what is said of files that are accepted.
fn put_accepted<O: Sink + Drop>(
    alloc: Global,
    out: &mut RemarkOut<O>,
    names: &SiteNames<'_>,
    site: &AcceptedSite,
    effects: bool,
) -> Result<(), IoError>
    ensures { Adds result out.old out.new
        (remarks_of effects names.now.workers.now names.now.map.now (found.Site site.now)) }
{
    if effects {
        effects_on(alloc, out, names, site)
    } else {
        Ok(())
    }
}

/// Adds each line of a workers.properties that is refused by itself, or else what is wrong with the workers together.
fn put_refused_workers<O: Sink + Drop>(
    alloc: Global,
    out: &mut RemarkOut<O>,
    name: &[u8],
    refused: &RefusedWorkers,
) -> Result<(), IoError>
    ensures { Adds result out.old out.new (workers_refusals (name.now, refused.now.text) refused.now.refusal) }
{
    let file = SiteFile {
        name,
        text: refused.text.as_slice(),
    };
    let refusal = refused.refusal;
    let first = FirstRefused {
        line: refusal.line,
        words: workers_words(refusal.reason),
    };
    match refused.part {
        RefusedPart::Line => put_refused(alloc, out, Judge::Workers, &file, first),
        RefusedPart::Workers => put_workers_refusal(alloc, out, &file, refusal),
    }
}

/// Adds what a person is told of a site's files, which a command judged: of the first that is refused each line that is
/// refused, and, where `effects` is on, what in accepted ones a site of mod_jk would expect to have effect and hasn't, and that
/// a map has no rule. It is written as it is found, and not held.
pub fn site_remarks<O: Sink + Drop>(
    alloc: Global,
    out: &mut RemarkOut<O>,
    names: &SiteNames<'_>,
    found: &SiteFound,
    effects: bool,
) -> Result<(), IoError>
    ensures { Adds result out.old out.new (remarks_of effects names.now.workers.now names.now.map.now found.now) }
{
    match found {
        SiteFound::Workers(workers) => put_workers(alloc, out, names.workers, workers, effects),
        SiteFound::Site(site) => put_accepted(alloc, out, names, site, effects),
        SiteFound::WorkersRefused(refused) => put_refused_workers(
            alloc,
            out,
            names.workers,
            refused,
        ),
        SiteFound::MapRefused(refused) => put_refused_map(alloc, out, names, refused, effects),
    }
}
