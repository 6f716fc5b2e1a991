//! A directive of the whole site: `worker.maintain`.
ghost use Rattle.std.specs.Prelude.{◌≡◌, ◌≤◌};
ghost use Rattle.std.specs.Option.{option_map};
ghost use Rattle.site_config.specs.Entries.{as_property, as_properties};
ghost use Rattle.site_workers.specs.Site.{is_maintain_line, maintain_of};
ghost use Rattle.site_workers.specs.Given.{last_of};
ghost use Rattle.lb_model.specs.declared.config.TheConstants.{MAX_PERIOD_SECONDS};

use site_config::{PropertyLine, period_of};

/// The last line that gives the seconds between two maintenances.
fn maintain_line<'t>(entries: &[PropertyLine<'t>]) -> Option<PropertyLine<'t>>
    ensures { option_map as_property result ≡ last_of is_maintain_line (as_properties entries.now) }
{
    let mut last = None;
    for entry in entries {
        if entry.is_maintain() {
            last = Some(*entry);
        }
    }
    last
}

/// The seconds between two maintenances.
pub(crate) fn maintain_of(entries: &[PropertyLine<'_>]) -> u64
    ensures value { result ≡ maintain_of (as_properties entries.now) }
    ensures above { 1 ≤ result }
    ensures below { result ≤ MAX_PERIOD_SECONDS }
{
    match maintain_line(entries) {
        Some(entry) => match period_of(entry.value) {
            Some(seconds) => seconds,
            None => 60,
        },
        None => 60,
    }
}
