//! The judgement of a site's two files, for all that is printed or told of them.
ghost use Rattle.std.specs.Prelude.{◌≡◌, ◌≤◌, ◌<◌, ◌^◌, ℕ, List, Ok, true, IfOk, length};
ghost use Rattle.jk_io.specs.declared.whole_input.TheConstants.{MAX_INPUT_BYTES};
ghost use Rattle.site_config.specs.Entries.{as_properties};
ghost use Rattle.site_config.specs.Properties.{read_text};
ghost use Rattle.site_reports.specs.Found.{FindsMap, FindsSite, FindsWorkers, is_refused};
ghost use Rattle.site_reports.specs.Judgements.{IsJudgement};

use crate::found::{AcceptedSite, AcceptedWorkers, RefusedMap, RefusedWorkers, SiteFound};
use crate::no_effect::WorkersNoteList;
use crate::notes::notes_of;
use crate::refused_part::RefusedPart;
use jk_io::{Bytes, NoMemory};
use site_config::{Config, PropertyLine, PropsRefusal, WorkersError, read_entries};
use site_mounts::{RulesError, read_rules};
use site_workers::configure;
use std::alloc::Global;

impl SiteFound {
    /// Whether a file is refused.
    pub fn is_refused(&self) -> bool
        ensures { result ≡ is_refused self.now }
    {
        match self {
            SiteFound::Workers(_) | SiteFound::Site(_) => false,
            SiteFound::WorkersRefused(_) | SiteFound::MapRefused(_) => true,
        }
    }
}

/// A workers.properties as it was judged.
#[derive(Drop)]
enum Judgement {
    Accepted {
        config: Config,
        notes: WorkersNoteList,
    },
    Refused {
        refusal: PropsRefusal,
        part: RefusedPart,
    },
}

/// Judges the workers of lines, each of which passes by itself, and notes what has no effect.
fn judge_lines(alloc: Global, lines: &[PropertyLine<'_>]) -> Result<Judgement, NoMemory>
    requires { length lines.now < 2 ^ 32 }
    ensures { (text : List ℕ) → read_text true text ≡ Ok (as_properties lines.now) → IfOk result (IsJudgement text) }
{
    match configure(alloc, lines) {
        Ok(config) => {
            let notes = notes_of(alloc, &config, lines)?;
            Ok(Judgement::Accepted { config, notes })
        }
        Err(WorkersError::Refused(refusal)) => Ok(Judgement::Refused {
            refusal,
            part: RefusedPart::Workers,
        }),
        Err(WorkersError::NoMemory) => Err(NoMemory),
    }
}

/// Judges a text: each line by itself, and then the workers.
fn judge_text(alloc: Global, text: &[u8]) -> Result<Judgement, NoMemory>
    requires { length text.now ≤ MAX_INPUT_BYTES }
    ensures { IfOk result (IsJudgement text.now) }
{
    match read_entries(alloc, true, text) {
        Ok(lines) => judge_lines(alloc, lines.as_slice()),
        Err(WorkersError::Refused(refusal)) => Ok(Judgement::Refused {
            refusal,
            part: RefusedPart::Line,
        }),
        Err(WorkersError::NoMemory) => Err(NoMemory),
    }
}

/// Judges a workers.properties.
pub fn judge_workers(alloc: Global, text: Bytes) -> Result<SiteFound, NoMemory>
    requires short { length text ≤ MAX_INPUT_BYTES }
    ensures { IfOk result (FindsWorkers text) }
{
    match judge_text(alloc, text.as_slice())? {
        Judgement::Accepted { config, notes } => {
            let accepted = AcceptedWorkers {
                text,
                config,
                notes,
            };
            Ok(SiteFound::Workers(accepted))
        }
        Judgement::Refused { refusal, part } => {
            let refused = RefusedWorkers {
                text,
                refusal,
                part,
            };
            Ok(SiteFound::WorkersRefused(refused))
        }
    }
}

/// Judges a uriworkermap.properties over these workers.
fn judge_map(alloc: Global, workers: AcceptedWorkers, text: Bytes) -> Result<SiteFound, NoMemory>
    requires short { length text ≤ MAX_INPUT_BYTES }
    ensures { IfOk result (FindsMap workers text) }
{
    match read_rules(alloc, text.as_slice(), &workers.config) {
        Ok(noted) => Ok(SiteFound::Site(AcceptedSite {
            workers,
            map: text,
            rules: noted.map,
            notes: noted.notes,
        })),
        Err(RulesError::Refused(refusal)) => Ok(SiteFound::MapRefused(RefusedMap {
            workers,
            text,
            refusal,
        })),
        Err(RulesError::NoMemory) => Err(NoMemory),
    }
}

/// Judges both files of a site, the workers.properties first.
pub fn judge_site(alloc: Global, workers: Bytes, map: Bytes) -> Result<SiteFound, NoMemory>
    requires short { (length workers ≤ MAX_INPUT_BYTES) × (length map ≤ MAX_INPUT_BYTES) }
    ensures { IfOk result (FindsSite workers map) }
{
    match judge_workers(alloc, workers)? {
        SiteFound::Workers(workers) => judge_map(alloc, workers, map),
        found => Ok(found),
    }
}
