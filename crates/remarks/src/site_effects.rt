//! Remarks on the lines of a site's two files that have no effect, where both are accepted.
ghost use Rattle.std.specs.Prelude.{true};
ghost use Rattle.site_reports.specs.declared.found.SiteFound.TheVariants as found;
ghost use Rattle.remarks.specs.Added.{Adds};
ghost use Rattle.remarks.specs.Remarks.{remarks_of};

use crate::map_effects::put_map_effects;
use crate::remark_out::RemarkOut;
use crate::remarks::put_workers;
use crate::site_file::SiteNames;
use jk_io::{IoError, Sink};
use site_reports::AcceptedSite;
use std::alloc::Global;

/// Adds what has no effect in the files of a site, both of which are accepted.
pub fn effects_on<O: Sink + Drop>(
    alloc: Global,
    out: &mut RemarkOut<O>,
    names: &SiteNames<'_>,
    site: &AcceptedSite,
) -> Result<(), IoError>
    ensures { Adds result out.old out.new (remarks_of true names.now.workers.now names.now.map.now (found.Site site.now)) }
{
    put_workers(alloc, out, names.workers, &site.workers, true)?;
    put_map_effects(alloc, out, names.map, site.notes.as_slice(), &site.rules)
}
