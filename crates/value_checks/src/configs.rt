//! Configurations of a balancer as a line has them, and copies.

use check_lines::texts::{long, put_given, put_number, short};
use jk_io::{Bytes, NoMemory};
use lb_model::{
    Activation, ConfigError, FailList, LbConfig, MemberConfig, MemberList, Method, RowList, Terms,
    View,
};
use std::alloc::Global;

/// What is given of a configuration: `before` members of factor 1, and one with these values after them.
#[derive(Clone, Copy)]
struct Given {
    before: u64,
    factor: u32,
    distance: u32,
    pool: u32,
    redirect: Option<u32>,
    maintain: u64,
    recover: u64,
}

fn given_of(words: &[&str]) -> Option<Given> {
    let [before, factor, distance, pool, redirect, maintain, recover] = words else {
        return None;
    };
    Some(Given {
        before: long(before)?,
        factor: short(factor)?,
        distance: short(distance)?,
        pool: short(pool)?,
        redirect: short(redirect),
        maintain: long(maintain)?,
        recover: long(recover)?,
    })
}

/// A member without a name.
fn member(alloc: Global, given: &Given) -> MemberConfig {
    MemberConfig {
        name: Bytes::new(alloc),
        route: Bytes::new(alloc),
        factor: given.factor,
        distance: given.distance,
        activation: Activation::Active,
        redirect: given.redirect,
        pool: given.pool,
    }
}

fn push_plain(alloc: Global, list: &mut MemberList, count: u64) -> Result<(), NoMemory> {
    let plain = Given {
        factor: 1,
        distance: 0,
        pool: 64,
        redirect: None,
        ..COPIED
    };
    for _ in 0..count {
        list.push(member(alloc, &plain))?;
    }
    Ok(())
}

fn members(alloc: Global, given: &Given) -> Result<MemberList, NoMemory> {
    let mut list = MemberList::new(alloc);
    push_plain(alloc, &mut list, given.before)?;
    list.push(member(alloc, given))?;
    Ok(list)
}

fn config(maintain: u64, recover: u64, members: MemberList) -> Result<LbConfig, ConfigError> {
    let method = Method::Request;
    LbConfig::new(method, true, false, false, maintain, recover, members)
}

fn put_error(out: &mut Bytes, error: Option<ConfigError>) -> Result<bool, NoMemory> {
    match error {
        None => out.extend(b"accepted")?,
        Some(ConfigError::NoMembers) => out.extend(b"no members")?,
        Some(ConfigError::TooMany) => out.extend(b"too many")?,
        Some(ConfigError::BadMember { index }) => put_number(out, "bad member ", u64::from(index))?,
        Some(ConfigError::BadTime) => out.extend(b"bad time")?,
        Some(ConfigError::TooWide) => out.extend(b"too wide")?,
    }
    Ok(true)
}

fn error_of(maintain: u64, recover: u64, members: MemberList) -> Option<ConfigError> {
    config(maintain, recover, members).err()
}

/// How a configuration is refused.
fn refusal_of(alloc: Global, given: &Given) -> Result<Option<ConfigError>, NoMemory> {
    let list = members(alloc, given)?;
    Ok(error_of(given.maintain, given.recover, list))
}

/// Tells how a configuration is refused, or that it isn't.
pub fn tell_config(alloc: Global, words: &[&str], out: &mut Bytes) -> Result<bool, NoMemory> {
    if words == ["empty"].as_slice() {
        return put_error(out, error_of(60, 60, MemberList::new(alloc)));
    }
    match given_of(words) {
        Some(given) => put_error(out, refusal_of(alloc, &given)?),
        None => Ok(false),
    }
}

/// What is copied here.
const COPIED: Given = Given {
    before: 2,
    factor: 7,
    distance: 0,
    pool: 64,
    redirect: Some(0),
    maintain: 60,
    recover: 60,
};

fn copied_members(alloc: Global) -> Result<usize, NoMemory> {
    match config(60, 60, members(alloc, &COPIED)?) {
        Ok(config) => Ok(config.copy()?.members.len()),
        Err(_) => Ok(0),
    }
}

fn copied_moment(alloc: Global) -> Result<u64, NoMemory> {
    let view = View {
        next: 3,
        at: 5,
        rows: RowList::new(alloc),
    };
    Ok(view.copy()?.at)
}

fn statuses(alloc: Global) -> Result<FailList, NoMemory> {
    let mut list = FailList::new(alloc);
    list.push((503, true))?;
    Ok(list)
}

fn copied_status(alloc: Global) -> Result<Option<(u16, bool)>, NoMemory> {
    Ok(statuses(alloc)?.copy()?.get(0).copied())
}

/// Tells what copies of a configuration, a view and a list of statuses have.
pub fn tell_copies(alloc: Global, out: &mut Bytes) -> Result<bool, NoMemory> {
    put_number(out, "members ", copied_members(alloc)? as u64)?;
    put_number(out, " at ", copied_moment(alloc)?)?;
    let status = copied_status(alloc)?;
    put_given(out, " status ", status.map(|pair| u64::from(pair.0)))?;
    out.extend(if status == Some((503, true)) {
        b" negated"
    } else {
        b""
    })?;
    put_number(out, " disabled ", Terms::none().disabled)?;
    Ok(true)
}
