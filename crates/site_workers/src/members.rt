//! The members of an lb worker: what is refused of them, and what is made of them.
ghost use Rattle.std.specs.Prelude.{◌≡◌, ◌≤◌, ◌<◌, ◌+◌, length, map, IfOk, IfErr, OnOk};
ghost use Rattle.lb_model.specs.Ranges.{AreInRange};
ghost use Rattle.site_workers.specs.Built.{HaveForce, AreBuilt, routes_at};
ghost use Rattle.site_config.specs.Entries.{as_properties};
ghost use Rattle.site_workers.specs.Listings.{as_listings};
ghost use Rattle.site_config.specs.Refusals.{IsRefusal};
ghost use Rattle.site_workers.specs.Site.{AreMembers, Breaks, Chained, Each, FirstBad, IsAjp13, IsNoAjp13, IsUnknown, Known, IsTraced, routes_of};
ghost use Rattle.site_workers.specs.Tables.{AreAtRest, lines_in};
ghost use Rattle.lb_model.specs.declared.config.TheConstants.{MAX_MEMBERS};

use crate::given::Given;
use crate::listing::Listing;
use crate::member::{endpoint_of, member_of};
use crate::row::Row;
use crate::settings::text_or;
use crate::site::{check_ajp13, check_known, check_reference, force_of};
use jk_io::NoMemory;
use lb_model::MemberConfig;
use site_config::{Directive, Endpoint, PropertyLine, WorkersError};
use std::alloc::Global;

/// Whether the references of each member lead on.
pub(crate) fn check_references<'t>(
    alloc: Global,
    given: &Given<'_, 't>,
    rows: &mut Vec<Row>,
    members: &[Listing<'t>],
) -> Result<(), WorkersError>
    requires rows { AreAtRest given.now rows.old.items }
    ensures rows { OnOk result (AreAtRest given.now rows.new.items) }
    ensures ok { OnOk result (Each (Chained (lines_in given.now)) (as_listings members.now)) }
    ensures broken { IfErr result (IsRefusal (FirstBad (Chained (lines_in given.now))
        (Breaks (lines_in given.now)) (as_listings members.now))) }
{
    for listing in members {
        check_reference(alloc, given, rows, listing)?;
    }
    Ok(())
}

/// Whether each member has a directive.
pub(crate) fn check_members_known(
    given: &Given<'_, '_>,
    members: &[Listing<'_>],
) -> Result<(), WorkersError>
    ensures ok { OnOk result (Each (Known (lines_in given.now)) (as_listings members.now)) }
    ensures unknown { IfErr result (IsRefusal (FirstBad (Known (lines_in given.now))
        (IsUnknown (lines_in given.now)) (as_listings members.now))) }
{
    for listing in members {
        check_known(given, listing)?;
    }
    Ok(())
}

/// Whether each member is of type ajp13.
pub(crate) fn check_types<'t>(
    alloc: Global,
    given: &Given<'_, 't>,
    rows: &mut Vec<Row>,
    members: &[Listing<'t>],
) -> Result<(), WorkersError>
    requires rows { AreAtRest given.now rows.old.items }
    requires traced { Each (IsTraced (lines_in given.now)) (as_listings members.now) }
    ensures rows { OnOk result (AreAtRest given.now rows.new.items) }
    ensures ok { OnOk result (Each (IsAjp13 (lines_in given.now)) (as_listings members.now)) }
    ensures other { IfErr result (IsRefusal (FirstBad (IsAjp13 (lines_in given.now))
        (IsNoAjp13 (lines_in given.now)) (as_listings members.now))) }
{
    for listing in members {
        check_ajp13(alloc, given, rows, listing)?;
    }
    Ok(())
}

/// The rows that are in force for these members.
fn rows_of<'t>(
    alloc: Global,
    given: &Given<'_, 't>,
    rows: &mut Vec<Row>,
    members: &[Listing<'t>],
) -> Result<Vec<Row>, WorkersError>
    requires rows { AreAtRest given.now rows.old.items }
    requires traced { Each (IsTraced (lines_in given.now)) (as_listings members.now) }
    ensures rows { OnOk result (AreAtRest given.now rows.new.items) }
    ensures force { IfOk result (λ v. HaveForce (lines_in given.now) (as_listings members.now) v.items) }
    ensures memory { IfErr result (λ e. e ≡ WorkersError.NoMemory) }
{
    let mut out = Vec::new(alloc);
    for listing in members {
        out.push(force_of(alloc, given, rows, listing.name)?)?;
    }
    Ok(out)
}

/// The routes of these members.
fn routes_of<'t>(
    alloc: Global,
    entries: &[PropertyLine<'t>],
    rows: &[Row],
    members: &[Listing<'t>],
) -> Result<Vec<&'t [u8]>, NoMemory>
    requires { length rows.now ≡ length members.now }
    ensures { IfOk result (λ v. map (λ r. r.now) v.items
        ≡ routes_at (as_properties entries.now) (as_listings members.now) rows.now) }
{
    let mut out = Vec::new(alloc);
    for (i, listing) in members.iter().enumerate() {
        let row = rows[i];
        out.push(text_or(entries, &row, Directive::Route, listing.name))?;
    }
    Ok(out)
}

/// The members of a balancer, by index, with how each is reached.
#[derive(Drop)]
pub(crate) struct Members {
    pub(crate) configs: Vec<MemberConfig>,
    pub(crate) ends: Vec<Endpoint>,
}

fn built<'t>(
    alloc: Global,
    entries: &[PropertyLine<'t>],
    rows: &[Row],
    members: &[Listing<'t>],
    routes: &[&[u8]],
) -> Result<Members, NoMemory>
    requires rows { length rows.now ≡ length members.now }
    requires routes { length routes.now < MAX_MEMBERS + 1 }
    ensures { IfOk result (λ b. AreBuilt (as_properties entries.now) (map (λ r. r.now) routes.now) 0
        (as_listings members.now) rows.now b.configs.items b.ends.items) }
{
    let mut configs = Vec::new(alloc);
    let mut ends = Vec::new(alloc);
    for (i, listing) in members.iter().enumerate() {
        let row = rows[i];
        let member = member_of(alloc, entries, &row, listing.name, routes, i)?;
        configs.push(member)?;
        let end = endpoint_of(alloc, entries, &row)?;
        ends.push(end)?;
    }
    Ok(Members { configs, ends })
}

/// The members of these names, at most 64.
pub(crate) fn members_of<'t>(
    alloc: Global,
    given: &Given<'_, 't>,
    rows: &mut Vec<Row>,
    members: &[Listing<'t>],
) -> Result<Members, WorkersError>
    requires rows { AreAtRest given.now rows.old.items }
    requires traced { Each (IsTraced (lines_in given.now)) (as_listings members.now) }
    requires few { length members.now ≤ MAX_MEMBERS }
    ensures rows { OnOk result (AreAtRest given.now rows.new.items) }
    ensures members { IfOk result (λ b. AreMembers (lines_in given.now) (routes_of b.configs.items) 0
        (as_listings members.now) b.configs.items b.ends.items) }
    ensures ranges { IfOk result (λ b. AreInRange b.configs.items) }
    ensures count { IfOk result (λ b. (length b.configs.items ≡ length members.now) × (length b.ends.items ≡ length members.now)) }
    ensures memory { IfErr result (λ e. e ≡ WorkersError.NoMemory) }
{
    let rows_in_force = rows_of(alloc, given, rows, members)?;
    let own = rows_in_force.as_slice();
    let routes_in_force = routes_of(alloc, given.entries, own, members)?;
    let routes = routes_in_force.as_slice();
    Ok(built(alloc, given.entries, own, members, routes)?)
}
