//! The second pass: the workers of `worker.list`, in order.
ghost use Rattle.std.specs.Prelude.{◌≡◌, ◌≤◌, ◌<◌, ◌^◌, ℕ, List, Ok, true, length, IfOk, IfErr, OnOk};
ghost use Rattle.jk_io.specs.declared.whole_input.TheConstants.{MAX_INPUT_BYTES};
ghost use Rattle.site_config.specs.Entries.{as_properties};
ghost use Rattle.site_config.specs.Properties.{read_text};
ghost use Rattle.site_workers.specs.Books.{Pass, RefusesMembers};
ghost use Rattle.site_workers.specs.Listings.{as_listing, as_listings};
ghost use Rattle.site_workers.specs.Lists.{firsts, site_list};
ghost use Rattle.site_config.specs.Refusals.{IsNumbered, IsRefusal};
ghost use Rattle.site_workers.specs.Rows.{property_at};
ghost use Rattle.site_workers.specs.Site.{AddsListing, AddsKind, Builds, IsConfig, IsRefusedText, IsTraced, RefusesListing, RefusesKind, RefusesWorkers, StopsAtListing, draft_of, maintain_of, no_workers, with_lb};
ghost use Rattle.site_workers.specs.Tables.{AreAtRest, lines_in};

use crate::books::{balanced, direct};
use crate::draft::Draft;
use crate::given::Given;
use crate::ignored::ignored_of;
use crate::listing::{Listing, listed};
use crate::member_lists::{member_lists, members_in};
use crate::members::{check_members_known, check_references, check_types};
use crate::row::Row;
use crate::settings::{is_closed, kind, truth_or};
use crate::site::{check_known, force_of};
use crate::table::{names_of, rows_of};
use crate::whole::maintain_of;
use jk_io::{Bytes, NoMemory};
use lb_model::MAX_BALANCERS;
use site_config::{
    Config, Directive, IgnoredList, Lb, PropertyLine, PropsError, PropsReason, Status, WorkerKind,
    WorkersError, read_entries, refused,
};
use std::alloc::Global;

/// Adds a balancer under a copy of its name.
fn put_lb(alloc: Global, draft: &mut Draft, name: &[u8], lb: Lb) -> Result<(), NoMemory>
    ensures { OnOk result (draft.new ≡ with_lb draft.old name.now lb) }
{
    draft.add_lb(Bytes::from_slice(alloc, name)?, lb)
}

/// Whether the members of an lb worker that is added after `count` balancers pass.
fn check_members<'t>(
    alloc: Global,
    given: &Given<'_, 't>,
    rows: &mut Vec<Row>,
    count: usize,
    listing: &Listing<'t>,
    members: &[Listing<'t>],
) -> Result<(), WorkersError>
    requires rows { AreAtRest given.now rows.old.items }
    ensures rows { OnOk result (AreAtRest given.now rows.new.items) }
    ensures pass { OnOk result (Pass (lines_in given.now) count (as_listings members.now)) }
    ensures refused { IfErr result (IsRefusal (RefusesMembers (lines_in given.now) count
        (as_listing listing.now) (as_listings members.now))) }
{
    check_references(alloc, given, rows, members)?;
    check_members_known(given, members)?;
    if count >= MAX_BALANCERS {
        return Err(refused(listing.line, PropsReason::TooManyBalancers));
    }
    check_types(alloc, given, rows, members)
}

/// Adds an lb worker.
fn add_lb<'t>(
    alloc: Global,
    given: &Given<'_, 't>,
    rows: &mut Vec<Row>,
    draft: &mut Draft,
    row: &Row,
    listing: &Listing<'t>,
) -> Result<(), WorkersError>
    requires rows { AreAtRest given.now rows.old.items }
    ensures rows { OnOk result (AreAtRest given.now rows.new.items) }
    ensures ok { OnOk result (AddsKind (lines_in given.now) given.now.maintain (as_listing listing.now)
        (property_at (lines_in given.now) row.now) WorkerKind.Lb draft.old draft.new) }
    ensures refused { IfErr result (IsRefusal (RefusesKind (lines_in given.now) (length draft.old.lbs)
        (as_listing listing.now) (property_at (lines_in given.now) row.now) WorkerKind.Lb)) }
{
    let members = members_in(given, row);
    check_members(alloc, given, rows, draft.lbs.len(), listing, members)?;
    let lb = balanced(alloc, given, rows, row, listing, members)?;
    put_lb(alloc, draft, listing.name, lb)?;
    Ok(())
}

/// Adds an ajp13 worker that is listed itself.
fn add_direct<'t>(
    alloc: Global,
    given: &Given<'_, 't>,
    rows: &mut Vec<Row>,
    draft: &mut Draft,
    row: &Row,
    listing: &Listing<'t>,
) -> Result<(), WorkersError>
    requires rows { AreAtRest given.now rows.old.items }
    requires traced { IsTraced (lines_in given.now) (as_listing listing.now) }
    ensures rows { OnOk result (AreAtRest given.now rows.new.items) }
    ensures ok { OnOk result (AddsKind (lines_in given.now) given.now.maintain (as_listing listing.now)
        (property_at (lines_in given.now) row.now) WorkerKind.Ajp13 draft.old draft.new) }
    ensures refused { IfErr result (IsRefusal (RefusesKind (lines_in given.now) (length draft.old.lbs)
        (as_listing listing.now) (property_at (lines_in given.now) row.now) WorkerKind.Ajp13)) }
{
    if draft.lbs.len() >= MAX_BALANCERS {
        return Err(refused(listing.line, PropsReason::TooManyBalancers));
    }
    let lb = direct(alloc, given, rows, listing)?;
    put_lb(alloc, draft, listing.name, lb)?;
    Ok(())
}

/// Adds a status worker.
fn add_status(
    alloc: Global,
    given: &Given<'_, '_>,
    draft: &mut Draft,
    row: &Row,
    listing: &Listing<'_>,
) -> Result<(), NoMemory>
    ensures { OnOk result (AddsKind (lines_in given.now) given.now.maintain (as_listing listing.now)
        (property_at (lines_in given.now) row.now) WorkerKind.Status draft.old draft.new) }
{
    let read_only = truth_or(given.entries, row, Directive::ReadOnly, false);
    let status = Status {
        name: Bytes::from_slice(alloc, listing.name)?,
        read_only,
        closed: is_closed(given.entries, row),
    };
    draft.add_status(Bytes::from_slice(alloc, listing.name)?, status)
}

/// Adds a listed worker, or refuses it.
fn add_worker<'t>(
    alloc: Global,
    given: &Given<'_, 't>,
    rows: &mut Vec<Row>,
    draft: &mut Draft,
    listing: &Listing<'t>,
) -> Result<(), WorkersError>
    requires rows { AreAtRest given.now rows.old.items }
    ensures rows { OnOk result (AreAtRest given.now rows.new.items) }
    ensures ok { OnOk result (AddsListing (lines_in given.now) given.now.maintain (as_listing listing.now) draft.old draft.new) }
    ensures refused { IfErr result (IsRefusal (RefusesListing (lines_in given.now) (length draft.old.lbs) (as_listing listing.now))) }
{
    check_known(given, listing)?;
    let row = force_of(alloc, given, rows, listing.name)?;
    match kind(given.entries, &row) {
        WorkerKind::Ajp13 => add_direct(alloc, given, rows, draft, &row, listing),
        WorkerKind::Lb => add_lb(alloc, given, rows, draft, &row, listing),
        WorkerKind::Status => Ok(add_status(alloc, given, draft, &row, listing)?),
    }
}

/// Adds the listed workers, up to the first that is refused.
fn add_workers<'t>(
    alloc: Global,
    given: &Given<'_, 't>,
    rows: &mut Vec<Row>,
    listings: &[Listing<'t>],
) -> Result<Draft, WorkersError>
    requires rows { AreAtRest given.now rows.old.items }
    ensures ok { IfOk result (Builds (lines_in given.now) given.now.maintain (as_listings listings.now) no_workers) }
    ensures refused { IfErr result (IsRefusal (StopsAtListing (lines_in given.now) given.now.maintain (as_listings listings.now) no_workers)) }
{
    let mut draft = Draft::new(alloc);
    for listing in listings {
        add_worker(alloc, given, rows, &mut draft, listing)?;
    }
    Ok(draft)
}

/// The workers of `worker.list`, each name once, made into balancers and status workers.
fn drafted(alloc: Global, given: &Given<'_, '_>) -> Result<Draft, WorkersError>
    ensures ok { IfOk result (Builds (lines_in given.now) given.now.maintain
        (firsts (site_list (lines_in given.now))) no_workers) }
    ensures refused { IfErr result (IsRefusal (StopsAtListing (lines_in given.now) given.now.maintain
        (firsts (site_list (lines_in given.now))) no_workers)) }
{
    let mut rows = rows_of(alloc, given.names, given.entries)?;
    let listings = listed(alloc, given.entries)?;
    add_workers(alloc, given, &mut rows, listings.as_slice())
}

/// The configuration that the lines give, with the lines that have no effect kept beside it.
fn config_of(
    alloc: Global,
    given: &Given<'_, '_>,
    ignored: IgnoredList,
) -> Result<Config, WorkersError>
    ensures ok { IfOk result (λ c. Builds (lines_in given.now) given.now.maintain
        (firsts (site_list (lines_in given.now))) no_workers (draft_of c)) }
    ensures maintain { IfOk result (λ c. c.maintain ≡ given.now.maintain) }
    ensures ignored { IfOk result (λ c. c.ignored ≡ ignored) }
    ensures refused { IfErr result (IsRefusal (StopsAtListing (lines_in given.now) given.now.maintain
        (firsts (site_list (lines_in given.now))) no_workers)) }
{
    let Draft {
        lbs,
        statuses,
        listed,
    } = drafted(alloc, given)?;
    Ok(Config {
        lbs,
        statuses,
        listed,
        maintain: given.maintain,
        ignored,
    })
}

/// The configuration that lines give, each of which passes by itself, with those that have no effect kept beside it.
fn workers_of(
    alloc: Global,
    entries: &[PropertyLine<'_>],
    ignored: IgnoredList,
) -> Result<Config, WorkersError>
    requires { length entries.now < 2 ^ 32 }
    ensures ok { IfOk result (λ c. Builds (as_properties entries.now) (maintain_of (as_properties entries.now))
        (firsts (site_list (as_properties entries.now))) no_workers (draft_of c)) }
    ensures maintain { IfOk result (λ c. c.maintain ≡ maintain_of (as_properties entries.now)) }
    ensures ignored { IfOk result (λ c. c.ignored ≡ ignored) }
    ensures refused { IfErr result (IsRefusal (StopsAtListing (as_properties entries.now) (maintain_of (as_properties entries.now))
        (firsts (site_list (as_properties entries.now))) no_workers)) }
{
    let names = names_of(alloc, entries)?;
    let lists = member_lists(alloc, &names, entries)?;
    let given = Given {
        entries,
        names: &names,
        lists: lists.as_slice(),
        nobody: &[],
        maintain: maintain_of(entries),
    };
    config_of(alloc, &given, ignored)
}

/// The configuration of a workers.properties with these lines, each of which passes by itself, or the first refusal of its
/// workers: the second pass.
pub fn configure(alloc: Global, entries: &[PropertyLine<'_>]) -> Result<Config, WorkersError>
    requires few { length entries.now < 2 ^ 32 }
    ensures ok { (text : List ℕ) → read_text true text ≡ Ok (as_properties entries.now) → IfOk result (IsConfig text) }
    ensures refused { IfErr result (IsRefusal (RefusesWorkers (as_properties entries.now))) }
{
    let ignored = ignored_of(alloc, entries)?;
    workers_of(alloc, entries, ignored)
}

/// The configuration that a workers.properties gives, or its first refusal: the first pass goes over the lines, the
/// second over the workers of `worker.list`.
fn workers_in(alloc: Global, text: &[u8]) -> Result<Config, WorkersError>
    requires { length text.now ≤ MAX_INPUT_BYTES }
    ensures ok { IfOk result (IsConfig text.now) }
    ensures refused { IfErr result (IsRefusal (IsRefusedText text.now)) }
{
    let entries = read_entries(alloc, true, text)?;
    configure(alloc, entries.as_slice())
}

/// The same, with the number of the refusal.
pub fn read_workers(alloc: Global, text: &[u8]) -> Result<Config, PropsError>
    requires { length text.now ≤ MAX_INPUT_BYTES }
    ensures ok { IfOk result (IsConfig text.now) }
    ensures refused { IfErr result (IsNumbered (IsRefusedText text.now)) }
{
    Ok(workers_in(alloc, text)?)
}
