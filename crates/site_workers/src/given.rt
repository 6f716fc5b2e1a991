//! The lines of a text, their workers and lists, as one value.
ghost use Rattle.std.specs.Prelude.{◌≡◌, ◌<◌, ◌^◌, [], length};
ghost use Rattle.lb_model.specs.Ranges.{IsPeriod};
ghost use Rattle.site_config.specs.Entries.{as_properties};
ghost use Rattle.site_workers.specs.MemberLists.{HaveMembers};
ghost use Rattle.site_workers.specs.Table.{IsNameOfGiven};

use crate::listing::Listing;
use crate::name_table::NameTable;
use jk_io::ListOf;
use site_config::PropertyLine;

/// The lines of a text, the numbers of the workers that have a directive, and by these numbers the members that each
/// worker's own lines list.
#[derive(Clone, Copy)]
pub(crate) struct Given<'g, 't> {
    pub(crate) entries: &'g [PropertyLine<'t>],
    pub(crate) names: &'g NameTable<'t>,
    pub(crate) lists: &'g [ListOf<Listing<'t>>],
    /// The members of a worker that has no list.
    pub(crate) nobody: &'g [Listing<'t>],
    /// Seconds between two maintenances.
    pub(crate) maintain: u64,
    pub(crate) ghost empty: { nobody.now ≡ [] },
    pub(crate) ghost few: { length entries.now < 2 ^ 32 },
    pub(crate) ghost known: { IsNameOfGiven (as_properties entries.now) names.now },
    pub(crate) ghost members: { HaveMembers (as_properties entries.now) names.now lists.now },
    pub(crate) ghost period: { IsPeriod maintain },
}
