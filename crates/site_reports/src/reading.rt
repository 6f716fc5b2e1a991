//! The two files of a site, read and judged.
ghost use Rattle.std.specs.Prelude.{◌≡◌, ◌<◌, ◌≤◌, ℕ, List, Option, Some, length, IfOk, IsOk, IfSome, IfNone, IsSomeAnd};
ghost use Rattle.jk_io.specs.Stored.{content_of};
ghost use Rattle.jk_io.specs.Told.{HasCause};
ghost use Rattle.site_reports.specs.Found.{FindsSite};
ghost use Rattle.jk_io.specs.declared.whole_input.TheConstants.{MAX_INPUT_BYTES};
ghost use Rattle.site_reports.specs.Sites.{IsJudgedSite, Judges};

use crate::found::{AcceptedSite, SiteFound};
use crate::judging::judge_site;
use jk_io::{Bytes, FileError, Files, IoError, NoMemory};
use std::alloc::Global;

/// What the files of a site are judged to be.
#[derive(Drop)]
pub enum Judged {
    Site(AcceptedSite),
    /// They are refused: what was found of them, or nothing where one is too long to be judged.
    Refused(Option<SiteFound>),
}

/// A file's text; none where it has more than 67,108,864 bytes.
fn text_of<F: Files>(alloc: Global, files: &mut F, name: &Bytes) -> Result<Option<Bytes>, IoError>
    ensures there { IfOk result (λ read. IfSome read (λ text. IfSome (F.files files.old) (λ all. content_of all name.now ≡ Some text))) }
    ensures short { IfOk result (λ read. IfSome read (λ text. length text ≤ MAX_INPUT_BYTES)) }
    ensures long { IfOk result (λ read. IfNone read (IfSome (F.files files.old) (λ all. IsSomeAnd (content_of all name.now) (λ text. MAX_INPUT_BYTES < length text)))) }
    ensures cause { HasCause (F.faults files.old) (F.faults files.new) result }
    ensures calm { IsOk result → F.faults files.new ≡ F.faults files.old }
    ensures same { F.files files.new ≡ F.files files.old }
{
    match files.read_file(alloc, name) {
        Ok(text) => Ok(Some(text)),
        Err(FileError::TooLong) => Ok(None),
        Err(FileError::Failed) => Err(IoError::Failed),
        Err(FileError::NoMemory) => Err(IoError::NoMemory),
    }
}

/// What was found of both files, as a site or as what refuses them.
fn judged_as(found: SiteFound) -> Judged
    ensures { (workers map : List ℕ) → FindsSite workers map found → Judges workers map result }
{
    match found {
        SiteFound::Site(site) => Judged::Site(site),
        found => Judged::Refused(Some(found)),
    }
}

/// Judges the texts of a site.
fn judge(alloc: Global, workers: Bytes, map: Bytes) -> Result<Judged, NoMemory>
    requires short { (length workers ≤ MAX_INPUT_BYTES) × (length map ≤ MAX_INPUT_BYTES) }
    ensures { IfOk result (Judges workers map) }
{
    Ok(judged_as(judge_site(alloc, workers, map)?))
}

/// Reads both files of a site before it judges any of them.
pub fn read_site<F: Files>(
    alloc: Global,
    files: &mut F,
    workers: &Bytes,
    map: &Bytes,
) -> Result<Judged, IoError>
    ensures ok { IfOk result (λ judged. (incoming : Option (List ℕ))
        → IsJudgedSite (record { files = F.files files.old; incoming = incoming }) workers.now map.now judged) }
    ensures cause { HasCause (F.faults files.old) (F.faults files.new) result }
    ensures steady { IsOk result → F.faults files.new ≡ F.faults files.old }
{
    let Some(workers) = text_of(alloc, files, workers)? else {
        return Ok(Judged::Refused(None));
    };
    let Some(map) = text_of(alloc, files, map)? else {
        return Ok(Judged::Refused(None));
    };
    Ok(judge(alloc, workers, map)?)
}
