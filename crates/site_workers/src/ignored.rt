//! The lines that have no effect.
ghost use Rattle.std.specs.Prelude.{◌≡◌, ◌∷◌, ◌++◌, [], IfOk, OnOk};
ghost use Rattle.site_config.specs.Entries.{as_property, as_properties};
ghost use Rattle.site_workers.specs.Site.{ignored_of, is_built};

use jk_io::NoMemory;
use site_config::{IgnoredList, PropertyLine};
use std::alloc::Global;

/// Whether a line has an effect.
#[tactic(auto, using(crate::proofs::GivenLemmas::built_given))]
fn is_built(entry: &PropertyLine<'_>) -> bool
    ensures { result ≡ is_built entry.now.key.now }
{
    match entry.worker() {
        None => entry.is_list() || entry.is_maintain(),
        Some((_, directive)) => directive.is_some(),
    }
}

/// Adds a line, if it has no effect.
fn put_ignored(ignored: &mut IgnoredList, entry: &PropertyLine<'_>) -> Result<(), NoMemory>
    ensures { OnOk result (ignored.new ≡ ignored.old ++ ignored_of (as_property entry.now ∷ [])) }
{
    if is_built(entry) {
        Ok(())
    } else {
        ignored.push(entry.line, entry.key)
    }
}

/// Those of these lines that have no effect.
pub(crate) fn ignored_of(
    alloc: Global,
    entries: &[PropertyLine<'_>],
) -> Result<IgnoredList, NoMemory>
    ensures { IfOk result (λ ignored. ignored ≡ ignored_of (as_properties entries.now)) }
{
    let mut ignored = IgnoredList::new(alloc);
    for entry in entries {
        put_ignored(&mut ignored, entry)?;
    }
    Ok(ignored)
}
