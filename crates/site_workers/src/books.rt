//! Balancers that are made of lb workers, and of ajp13 workers that are listed themselves.
ghost use Rattle.std.specs.Prelude.{◌≡◌, ◌≤◌, ◌<◌, length, IfOk, IfErr, OnErr, OnOk};
ghost use Rattle.lb_model.specs.Ranges.{AreInRange};
ghost use Rattle.site_config.specs.Entries.{as_properties};
ghost use Rattle.site_workers.specs.Books.{AreBookable, AreTooWide, IsBook, IsLbOf, IsBalancerOf, RefusesWide};
ghost use Rattle.site_workers.specs.Listings.{as_listing, as_listings};
ghost use Rattle.site_config.specs.Refusals.{IsRefusal};
ghost use Rattle.site_workers.specs.Rows.{property_at};
ghost use Rattle.site_workers.specs.Site.{Each, IsDirect, IsLb, IsTraced, RefusesBook, line_in};
ghost use Rattle.site_workers.specs.Tables.{AreAtRest, lines_in};
ghost use Rattle.lb_model.specs.declared.config.TheConstants.{MAX_MEMBERS};

use crate::given::Given;
use crate::listing::Listing;
use crate::member::sharing;
use crate::members::{Members, members_of};
use crate::row::{Row, picked};
use crate::settings::{filled_or, method, number_or, text, truth_or};
use jk_io::{Bytes, ListOf, NoMemory};
use lb_model::{ConfigError, LbConfig, MemberList, Method};
use site_config::{Directive, Endpoint, Lb, PropertyLine, PropsReason, WorkersError, refused};
use std::alloc::Global;

/// The line of the worker's type; 0 where none gives it.
fn type_line(entries: &[PropertyLine<'_>], row: &Row) -> u32
    ensures { result ≡ line_in (property_at (as_properties entries.now) row.now Directive.Kind) }
{
    match picked(entries, row, Directive::Kind) {
        Some(entry) => entry.line,
        None => 0,
    }
}

/// A balancer's own copies of its texts.
#[derive(Drop)]
struct LbTexts {
    name: Bytes,
    cookie: Bytes,
    path: Bytes,
}

fn texts_of(alloc: Global, name: &[u8], cookie: &[u8], path: &[u8]) -> Result<LbTexts, NoMemory>
    ensures name { IfOk result (λ t. t.name ≡ name.now) }
    ensures cookie { IfOk result (λ t. t.cookie ≡ cookie.now) }
    ensures path { IfOk result (λ t. t.path ≡ path.now) }
{
    Ok(LbTexts {
        name: Bytes::from_slice(alloc, name)?,
        cookie: Bytes::from_slice(alloc, cookie)?,
        path: Bytes::from_slice(alloc, path)?,
    })
}

/// The balancer of these parts, with copies of the texts.
fn made_of(
    alloc: Global,
    name: &[u8],
    cookie: &[u8],
    path: &[u8],
    book: LbConfig,
    ends: Vec<Endpoint>,
) -> Result<Lb, NoMemory>
    requires paired { length ends.items ≡ length book.members }
    requires cookie { 0 < length cookie.now }
    requires path { 0 < length path.now }
    ensures { IfOk result (IsBalancerOf name.now cookie.now path.now book ends.items) }
{
    let texts = texts_of(alloc, name, cookie, path)?;
    Ok(Lb {
        name: texts.name,
        book,
        ends: ListOf::from_vec(ends),
        cookie: texts.cookie,
        path: texts.path,
    })
}

/// The balancer of a worker that is listed itself.
pub(crate) fn direct<'t>(
    alloc: Global,
    given: &Given<'_, 't>,
    rows: &mut Vec<Row>,
    listing: &Listing<'t>,
) -> Result<Lb, WorkersError>
    requires rows { AreAtRest given.now rows.old.items }
    requires traced { IsTraced (lines_in given.now) (as_listing listing.now) }
    ensures rows { OnOk result (AreAtRest given.now rows.new.items) }
    ensures lb { IfOk result (IsDirect (lines_in given.now) given.now.maintain (as_listing listing.now)) }
    ensures memory { IfErr result (λ e. e ≡ WorkersError.NoMemory) }
{
    let alone = [*listing];
    let members = members_of(alloc, given, rows, &alone)?;
    let configs = ListOf::from_vec(members.configs);
    match LbConfig::new(
        Method::Request,
        false,
        false,
        true,
        given.maintain,
        60,
        configs,
    ) {
        Ok(book) => Ok(made_of(
            alloc,
            listing.name,
            b"JSESSIONID",
            b";jsessionid",
            book,
            members.ends,
        )?),
        Err(_) => unreachable!(),
    }
}

/// The book of an lb worker with these members, or the refusal of their factors.
fn book_of(given: &Given<'_, '_>, row: &Row, members: MemberList) -> Result<LbConfig, ConfigError>
    requires some { 1 ≤ length members }
    requires few { length members ≤ MAX_MEMBERS }
    requires within { AreInRange members }
    ensures book { IfOk result (IsBook (property_at (lines_in given.now) row.now) given.now.maintain members) }
    ensures wide { OnErr result (AreTooWide members) }
{
    let recover = number_or(given.entries, row, Directive::RecoverTime, 60);
    LbConfig::new(
        method(given.entries, row),
        truth_or(given.entries, row, Directive::Sticky, true),
        truth_or(given.entries, row, Directive::Force, false),
        false,
        given.maintain,
        recover,
        members,
    )
}

/// The balancer of an lb worker of this name with these members.
fn lb_with<'t>(
    alloc: Global,
    given: &Given<'_, 't>,
    row: &Row,
    name: &[u8],
    made: Members,
) -> Result<Lb, WorkersError>
    requires { AreBookable made.configs.items made.ends.items }
    ensures lb { IfOk result (IsLbOf (property_at (lines_in given.now) row.now) given.now.maintain
        name.now made.configs.items made.ends.items) }
    ensures wide { IfErr result (IsRefusal (RefusesWide made.configs.items
        (line_in (property_at (lines_in given.now) row.now Directive.Kind)))) }
{
    let common = text(given.entries, row, Directive::Secret);
    let ends = sharing(alloc, made.ends, common)?;
    let cookie_name: &'t [u8] = b"JSESSIONID";
    let path_name: &'t [u8] = b";jsessionid";
    let cookie = filled_or(given.entries, row, Directive::Cookie, cookie_name);
    let path = filled_or(given.entries, row, Directive::Path, path_name);
    match book_of(given, row, ListOf::from_vec(made.configs)) {
        Ok(book) => Ok(made_of(alloc, name, cookie, path, book, ends)?),
        Err(_) => Err(refused(type_line(given.entries, row), PropsReason::TooWide)),
    }
}

/// The balancer of an lb worker with these members, 1 to 64.
fn lb_of<'t>(
    alloc: Global,
    given: &Given<'_, 't>,
    rows: &mut Vec<Row>,
    row: &Row,
    listing: &Listing<'t>,
    members: &[Listing<'t>],
) -> Result<Lb, WorkersError>
    requires rows { AreAtRest given.now rows.old.items }
    requires traced { Each (IsTraced (lines_in given.now)) (as_listings members.now) }
    requires some { 1 ≤ length members.now }
    requires few { length members.now ≤ MAX_MEMBERS }
    ensures rows { OnOk result (AreAtRest given.now rows.new.items) }
    ensures lb { IfOk result (IsLb (lines_in given.now) (property_at (lines_in given.now) row.now)
        given.now.maintain listing.now.name.now (as_listings members.now)) }
    ensures wide { IfErr result (IsRefusal (RefusesBook (lines_in given.now)
        (line_in (property_at (lines_in given.now) row.now Directive.Kind)) (as_listings members.now))) }
{
    let made = members_of(alloc, given, rows, members)?;
    lb_with(alloc, given, row, listing.name, made)
}

/// The balancer of an lb worker with these members, each once, or the refusal of their number or of their factors.
pub(crate) fn balanced<'t>(
    alloc: Global,
    given: &Given<'_, 't>,
    rows: &mut Vec<Row>,
    row: &Row,
    listing: &Listing<'t>,
    members: &[Listing<'t>],
) -> Result<Lb, WorkersError>
    requires rows { AreAtRest given.now rows.old.items }
    requires traced { Each (IsTraced (lines_in given.now)) (as_listings members.now) }
    ensures rows { OnOk result (AreAtRest given.now rows.new.items) }
    ensures lb { IfOk result (IsLb (lines_in given.now) (property_at (lines_in given.now) row.now)
        given.now.maintain listing.now.name.now (as_listings members.now)) }
    ensures refused { IfErr result (IsRefusal (RefusesBook (lines_in given.now)
        (line_in (property_at (lines_in given.now) row.now Directive.Kind)) (as_listings members.now))) }
{
    if members.is_empty() {
        return Err(refused(type_line(given.entries, row), PropsReason::NoMembers));
    }
    if members.len() > 64 {
        return Err(refused(type_line(given.entries, row), PropsReason::TooManyMembers));
    }
    lb_of(alloc, given, rows, row, listing, members)
}
