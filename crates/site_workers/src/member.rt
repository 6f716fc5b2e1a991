//! A member of a balancer.
ghost use Rattle.std.specs.Prelude.{◌≡◌, ◌<◌, ◌+◌, ◌||◌, map, IfOk, IsSome, OnOk, length, None};
ghost use Rattle.std.specs.Option.{option_map};
ghost use Rattle.site_config.specs.Entries.{as_properties};
ghost use Rattle.site_workers.specs.Rows.{property_at};
ghost use Rattle.site_workers.specs.Settings.{IsEndpoint, IsMember, is_limited, redirect_in, other_at, shared, statuses_in};
ghost use Rattle.lb_model.specs.declared.config.TheConstants.{MAX_MEMBERS};

use crate::limits::limits_of;
use crate::row::Row;
use crate::settings::{activation, is_limited, number_or, pings, text, text_or};
use jk_io::{Bytes, ListOf, NoMemory};
use lb_model::{FailList, MemberConfig};
use site_config::{Directive, Endpoint, PropertyLine, statuses_of};
use std::alloc::Global;

fn copied(alloc: Global, text: Option<&[u8]>) -> Result<Option<Bytes>, NoMemory>
    ensures { IfOk result (λ b. b ≡ option_map (λ t. t.now) text.entry) }
{
    match text {
        Some(text) => Ok(Some(Bytes::from_slice(alloc, text)?)),
        None => Ok(None),
    }
}

/// The statuses that count as a failure.
fn fail_list(alloc: Global, entries: &[PropertyLine<'_>], row: &Row) -> Result<FailList, NoMemory>
    ensures { IfOk result (λ l. l ≡ statuses_in (property_at (as_properties entries.now) row.now Directive.FailOnStatus)) }
{
    match text(entries, row, Directive::FailOnStatus) {
        Some(text) => match statuses_of(text) {
            Some(statuses) => Ok(ListOf::from_vec(Vec::from_slice(alloc, statuses.as_slice())?)),
            None => Ok(ListOf::new(alloc)),
        },
        None => Ok(ListOf::new(alloc)),
    }
}

/// How the worker of this row is reached.
pub(crate) fn endpoint_of<'t>(
    alloc: Global,
    entries: &[PropertyLine<'t>],
    row: &Row,
) -> Result<Endpoint, NoMemory>
    ensures { IfOk result (IsEndpoint (property_at (as_properties entries.now) row.now)) }
{
    let localhost: &'t [u8] = b"localhost";
    let host = text_or(entries, row, Directive::Host, localhost);
    let secret = text(entries, row, Directive::Secret);
    let pings = pings(entries, row);
    let limits = limits_of(entries, row);
    Ok(Endpoint {
        port: number_or(entries, row, Directive::Port, 8009) as u16,
        retries: number_or(entries, row, Directive::Retries, 2) as u32,
        packet: number_or(entries, row, Directive::PacketSize, 8192) as u32,
        recovery: number_or(entries, row, Directive::RecoveryOptions, 0) as u8,
        ping_new: pings.dialled || is_limited(limits.connect_timeout),
        ping_each: pings.each || is_limited(limits.prepost_timeout),
        ping_idle: pings.idle,
        host: Bytes::from_slice(alloc, host)?,
        secret: copied(alloc, secret)?,
        fail_on: fail_list(alloc, entries, row)?,
        limits,
    })
}

/// Gives a member that has no secret of its own that of its balancer.
fn share_one(alloc: Global, end: &mut Endpoint, common: Option<&[u8]>) -> Result<(), NoMemory>
    ensures shared { OnOk result (end.new ≡ shared (option_map (λ t. t.now) common.entry) end.old) }

    // Its own secret stays.
    ensures own { IsSome end.old.secret → end.new.secret ≡ end.old.secret }
{
    if end.secret.is_none() {
        end.secret = copied(alloc, common)?;
    }
    Ok(())
}

fn share_secret(alloc: Global, ends: &mut [Endpoint], common: Option<&[u8]>) -> Result<(), NoMemory>
    ensures { OnOk result (ends.new ≡ map (shared (option_map (λ t. t.now) common.entry)) ends.old) }
{
    for end in ends.iter_mut() {
        share_one(alloc, end, common)?;
    }
    Ok(())
}

/// The members, each without a secret of its own with that of its balancer.
pub(crate) fn sharing(
    alloc: Global,
    ends: Vec<Endpoint>,
    common: Option<&[u8]>,
) -> Result<Vec<Endpoint>, NoMemory>
    ensures { IfOk result (λ v. v.items ≡ map (shared (option_map (λ t. t.now) common.entry)) ends.items) }
{
    let mut all = ends;
    share_secret(alloc, all.as_mut_slice(), common)?;
    Ok(all)
}

/// The first place from `from` on, but `index`, whose route is the text.
fn other_at(index: usize, text: &[u8], routes: &[&[u8]]) -> Option<u32>
    requires { length routes.now < MAX_MEMBERS + 1 }
    ensures { result ≡ other_at index text.now 0 (map (λ r. r.now) routes.now) }
{
    for (i, route) in routes.iter().enumerate() {
        if *route == text && i != index {
            return Some(i as u32);
        }
    }
    None
}

fn redirect(index: usize, text: Option<&[u8]>, routes: &[&[u8]]) -> Option<u32>
    requires { length routes.now < MAX_MEMBERS + 1 }
    ensures { result ≡ redirect_in (map (λ r. r.now) routes.now) index (option_map (λ t. t.now) text.entry) }
{
    match text {
        Some(text) => other_at(index, text, routes),
        None => None,
    }
}

/// The member at this place of a balancer whose members have these routes.
pub(crate) fn member_of<'t>(
    alloc: Global,
    entries: &[PropertyLine<'t>],
    row: &Row,
    name: &'t [u8],
    routes: &[&[u8]],
    index: usize,
) -> Result<MemberConfig, NoMemory>
    requires { length routes.now < MAX_MEMBERS + 1 }
    ensures { IfOk result (IsMember (property_at (as_properties entries.now) row.now) name.now (map (λ r. r.now) routes.now) index) }
{
    let route = text_or(entries, row, Directive::Route, name);
    let redirected = text(entries, row, Directive::Redirect);
    Ok(MemberConfig {
        factor: number_or(entries, row, Directive::Factor, 1) as u32,
        distance: number_or(entries, row, Directive::Distance, 0) as u32,
        activation: activation(entries, row),
        redirect: redirect(index, redirected, routes),
        pool: number_or(entries, row, Directive::PoolSize, 64) as u32,
        name: Bytes::from_slice(alloc, name)?,
        route: Bytes::from_slice(alloc, route)?,
    })
}
