//! The files of a site as a command judged them: what they give, or the first line that refuses them, each with its text.
ghost use Rattle.std.specs.Prelude.{◌≡◌, ◌≤◌, Ok, Err, length, true};
ghost use Rattle.jk_io.specs.declared.whole_input.TheConstants.{MAX_INPUT_BYTES};
ghost use Rattle.site_mounts.specs.Lines.{read_text};
ghost use Rattle.site_mounts.specs.MapNotes.{map_notes};
ghost use Rattle.site_mounts.specs.Sites.{stands_in};
ghost use Rattle.site_reports.specs.Notes.{AreNotes};
ghost use Rattle.site_reports.specs.RefusedParts.{IsRefusedPart};
ghost use Rattle.site_workers.specs.Site.{IsConfig, IsRefusedText};

use crate::no_effect::WorkersNoteList;
use crate::refused_part::RefusedPart;
use jk_io::{Bytes, ListOf};
use site_config::{Config, PropsRefusal};
use site_mounts::{MapNote, MapRefusal, UriMap};

/// A workers.properties that is accepted.
#[derive(Drop)]
pub struct AcceptedWorkers {
    pub text: Bytes,
    pub config: Config,
    /// What of it has no effect, or another one than in mod_jk.
    pub notes: WorkersNoteList,
    pub ghost short: { length text ≤ MAX_INPUT_BYTES },
    pub ghost gives: { ∥ IsConfig text config ∥₁ },
    pub ghost noted: { AreNotes text config notes },
}

/// The files of a site, both of which are accepted.
#[derive(Drop)]
pub struct AcceptedSite {
    pub workers: AcceptedWorkers,
    pub map: Bytes,
    pub rules: UriMap,
    /// What of the map has no effect.
    pub notes: ListOf<MapNote>,
    pub ghost short: { length map ≤ MAX_INPUT_BYTES },
    pub ghost gives: { read_text workers.config map ≡ Ok rules },
    pub ghost noted: { notes ≡ map_notes workers.config map },
    pub ghost stands: { stands_in workers.config rules ≡ true },
}

/// A workers.properties that is refused, with its first refusal, and what of it that is.
#[derive(Drop)]
pub struct RefusedWorkers {
    pub text: Bytes,
    pub refusal: PropsRefusal,
    pub part: RefusedPart,
    pub ghost short: { length text ≤ MAX_INPUT_BYTES },
    pub ghost refused: { ∥ IsRefusedText text refusal ∥₁ },
    pub ghost told_apart: { IsRefusedPart part text refusal },
}

/// A uriworkermap.properties that is refused, with its first refusal, and the workers.properties, which is accepted.
#[derive(Drop)]
pub struct RefusedMap {
    pub workers: AcceptedWorkers,
    pub text: Bytes,
    pub refusal: MapRefusal,
    pub ghost short: { length text ≤ MAX_INPUT_BYTES },
    pub ghost refused: { read_text workers.config text ≡ Err refusal },
}

/// What a command found of the files of a site.
#[derive(Drop)]
pub enum SiteFound {
    /// A workers.properties alone, which is accepted.
    Workers(AcceptedWorkers),
    Site(AcceptedSite),
    WorkersRefused(RefusedWorkers),
    MapRefused(RefusedMap),
}
