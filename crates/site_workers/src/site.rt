//! The lines of a text, its workers' names, and the rows that are in force.
ghost use Rattle.std.specs.Prelude.{◌≡◌, ◌<◌, ℕ, Some, slice_get, true, IfOk, IfErr, OnOk};
ghost use Rattle.site_workers.specs.Given.{is_given};
ghost use Rattle.site_workers.specs.Lists.{Listing};
ghost use Rattle.site_workers.specs.Listings.{as_listing};
ghost use Rattle.site_workers.specs.Numbers.{number_of};
ghost use Rattle.site_config.specs.Refusals.{IsRefusal};
ghost use Rattle.site_workers.specs.Rows.{HasForce};
ghost use Rattle.site_workers.specs.Site.{Breaks, Chained, IsAjp13, IsNoAjp13, IsUnknown, Known, IsTraced};
ghost use Rattle.site_workers.specs.Tables.{AreAtRest, lines_in};
ghost use Rattle.site_workers.specs.Ways.{IsBrokenWalk, IsSettled};

use crate::given::Given;
use crate::listing::Listing;
use crate::name_table::NameTable;
use crate::reference::resolve;
use crate::row::Row;
use crate::settings::kind;
use site_config::{PropsReason, WorkerKind, WorkersError, refused};
use std::alloc::Global;

/// The row of a worker whose row is whole.
fn settled_row(names: &NameTable<'_>, rows: &[Row], name: &[u8]) -> Row
    requires { IsSettled names.now rows.now name.now }
    ensures { (i : ℕ) → number_of name.now names.now ≡ Some i → slice_get rows.now i ≡ Some result }
{
    let number = names.find(name).unwrap();
    rows[number]
}

/// The row that is in force for a worker.
pub(crate) fn force_of<'t>(
    alloc: Global,
    given: &Given<'_, 't>,
    rows: &mut Vec<Row>,
    name: &'t [u8],
) -> Result<Row, WorkersError>
    requires given { is_given (lines_in given.now) name.now ≡ true }
    requires rows { AreAtRest given.now rows.old.items }
    ensures rows { OnOk result (AreAtRest given.now rows.new.items) }
    ensures force { IfOk result (HasForce (lines_in given.now) name.now) }
    ensures broken { IfErr result (IsBrokenWalk (lines_in given.now) name.now) }
{
    resolve(alloc, given, rows, name)?;
    Ok(settled_row(given.names, rows.as_slice(), name))
}

/// Whether the references of a listed worker lead on; one without a directive has none.
pub(crate) fn check_reference<'t>(
    alloc: Global,
    given: &Given<'_, 't>,
    rows: &mut Vec<Row>,
    listing: &Listing<'t>,
) -> Result<(), WorkersError>
    requires rows { AreAtRest given.now rows.old.items }
    ensures rows { OnOk result (AreAtRest given.now rows.new.items) }
    ensures ok { OnOk result (Chained (lines_in given.now) (as_listing listing.now)) }
    ensures broken { IfErr result (IsRefusal (Breaks (lines_in given.now) (as_listing listing.now))) }
{
    match given.names.find(listing.name) {
        Some(_) => {
            force_of(alloc, given, rows, listing.name)?;
            Ok(())
        }
        None => Ok(()),
    }
}

/// Whether a listed worker has a directive.
pub(crate) fn check_known(given: &Given<'_, '_>, listing: &Listing<'_>) -> Result<(), WorkersError>
    ensures ok { OnOk result (Known (lines_in given.now) (as_listing listing.now)) }
    ensures unknown { IfErr result (IsRefusal (IsUnknown (lines_in given.now) (as_listing listing.now))) }
{
    match given.names.find(listing.name) {
        Some(_) => Ok(()),
        None => Err(refused(listing.line, PropsReason::UnknownWorker)),
    }
}

/// Whether a member is of type ajp13.
pub(crate) fn check_ajp13<'t>(
    alloc: Global,
    given: &Given<'_, 't>,
    rows: &mut Vec<Row>,
    listing: &Listing<'t>,
) -> Result<(), WorkersError>
    requires rows { AreAtRest given.now rows.old.items }
    requires traced { IsTraced (lines_in given.now) (as_listing listing.now) }
    ensures rows { OnOk result (AreAtRest given.now rows.new.items) }
    ensures ok { OnOk result (IsAjp13 (lines_in given.now) (as_listing listing.now)) }
    ensures other { IfErr result (IsRefusal (IsNoAjp13 (lines_in given.now) (as_listing listing.now))) }
{
    let row = force_of(alloc, given, rows, listing.name)?;
    match kind(given.entries, &row) {
        WorkerKind::Ajp13 => Ok(()),
        WorkerKind::Lb => Err(refused(listing.line, PropsReason::NoAjp13)),
        WorkerKind::Status => Err(refused(listing.line, PropsReason::NoAjp13)),
    }
}
