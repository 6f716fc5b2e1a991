//! The members that each worker's own lines list: each list is read once, however many balancers have it.
ghost use Rattle.std.specs.Prelude.{◌≡◌, ℕ, All, List, [], Some, length, map, IfOk, IfSome, OnOk, ◌<◌, vec_len};
ghost use Rattle.site_config.specs.Entries.{as_property, as_properties};
ghost use Rattle.site_workers.specs.Given.{gives};
ghost use Rattle.site_config.specs.Directives.{worker_part};
ghost use Rattle.site_workers.specs.Lists.{firsts, members_in, name_part};
ghost use Rattle.site_workers.specs.Listings.{as_listings};
ghost use Rattle.site_workers.specs.MemberLists.{AddsLine, HaveLines, HaveMembers, is_number};
ghost use Rattle.site_workers.specs.Numbers.{number_of};
ghost use Rattle.site_workers.specs.Rows.{property_at};
ghost use Rattle.site_workers.specs.Tables.{lines_in};

use crate::firsts::firsts;
use crate::given::Given;
use crate::listing::{Listing, push_listings};
use crate::name_table::NameTable;
use crate::row::{Row, picked};
use jk_io::{ListOf, NoMemory};
use site_config::{Directive, PropertyLine};
use std::alloc::Global;

/// Lists of members, by the number of the worker whose lines they are.
pub(crate) type MemberLists<'t> = Vec<ListOf<Listing<'t>>>;

/// The number of the worker whose members the line lists.
fn lister(names: &NameTable<'_>, entry: &PropertyLine<'_>) -> Option<usize>
    ensures within { IfSome result (λ i. i < length names.now) }
    ensures value { (name : List ℕ) (i : ℕ) → number_of name names.now ≡ Some i
        → gives name Directive.BalanceWorkers (as_property entry.now) ≡ is_number i result }
{
    let (name, _) = entry.worker()?;
    if entry.gives(Directive::BalanceWorkers) {
        names.find(name)
    } else {
        None
    }
}

/// Adds the names of a line to its worker's list.
fn add_line<'t>(
    alloc: Global,
    names: &NameTable<'t>,
    lists: &mut MemberLists<'t>,
    entry: &PropertyLine<'t>,
) -> Result<(), NoMemory>
    requires { vec_len lists.old ≡ length names.now }
    ensures { OnOk result (AddsLine names.now (as_property entry.now) lists.old.items lists.new.items) }
{
    match lister(names, entry) {
        Some(number) => push_listings(alloc, &mut lists[number], entry),
        None => Ok(()),
    }
}

fn no_lists<'t>(alloc: Global, count: usize) -> Result<MemberLists<'t>, NoMemory>
    ensures count { IfOk result (λ v. vec_len v ≡ count) }
    ensures empty { IfOk result (λ v. All (λ list. list ≡ []) v.items) }
{
    let mut lists = Vec::with_capacity(alloc, count)?;
    for _i in 0..count {
        lists.push(ListOf::new(alloc))?;
    }
    Ok(lists)
}

/// Each worker's list, one line after another.
fn joined_lists<'t>(
    alloc: Global,
    names: &NameTable<'t>,
    entries: &[PropertyLine<'t>],
) -> Result<MemberLists<'t>, NoMemory>
    ensures { IfOk result (λ v. HaveLines (as_properties entries.now) names.now v.items) }
{
    let mut lists = no_lists(alloc, names.len())?;
    for entry in entries {
        add_line(alloc, names, &mut lists, entry)?;
    }
    Ok(lists)
}

/// Each list with each name once, where it stands first.
fn once<'t>(alloc: Global, lists: &[ListOf<Listing<'t>>]) -> Result<MemberLists<'t>, NoMemory>
    ensures { IfOk result (λ v. map as_listings v.items ≡ map (λ l. firsts (as_listings l)) lists.now) }
{
    let mut out = Vec::with_capacity(alloc, lists.len())?;
    for list in lists {
        out.push(ListOf::from_vec(firsts(alloc, list.as_slice())?))?;
    }
    Ok(out)
}

/// The members that each worker's own lines list, each name once.
pub(crate) fn member_lists<'t>(
    alloc: Global,
    names: &NameTable<'t>,
    entries: &[PropertyLine<'t>],
) -> Result<MemberLists<'t>, NoMemory>
    ensures { IfOk result (λ v. HaveMembers (as_properties entries.now) names.now v.items) }
{
    once(alloc, joined_lists(alloc, names, entries)?.as_slice())
}

/// The worker whose line it is.
fn owner_of<'t>(entry: &PropertyLine<'t>) -> &'t [u8]
    ensures { result.now ≡ name_part (worker_part (as_property entry.now).key) }
{
    match entry.worker() {
        Some((owner, _)) => owner,
        None => b"",
    }
}

/// The members that are in force for the worker of this row, each name once.
pub(crate) fn members_in<'g, 't>(given: &Given<'g, 't>, row: &Row) -> &'g [Listing<'t>]
    ensures { as_listings result.now ≡ firsts (members_in (lines_in given.now)
        (property_at (lines_in given.now) row.now Directive.BalanceWorkers)) }
{
    let Some(entry) = picked(given.entries, row, Directive::BalanceWorkers) else {
        return given.nobody;
    };
    let Some(number) = given.names.find(owner_of(&entry)) else {
        return given.nobody;
    };
    match given.lists.get(number) {
        Some(list) => list.as_slice(),
        None => given.nobody,
    }
}
