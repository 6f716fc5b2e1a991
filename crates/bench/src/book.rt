//! How many holds a second a Book has, by the number of its members and of the entries that it keeps.
//!
//! It makes N exchanges in each of nine Books: choices and returns alone, and with a maintenance and a command after
//! each 64 exchanges. bench/scan.c picks by the same rule over plain arrays.
ghost use Rattle.std.specs.Prelude.{◌≡◌};
ghost use Rattle.lb_model.specs.declared.segment.TheConstants.{MODERN_RULES};

use crate::done::{Done, show, tell};
use jk_io::{Bytes, NoMemory};
use lb_book::{Book, Picked};
use lb_model::{
    Activation, Ask, Change, Command, ConfigError, Kind, LbConfig, MemberConfig, MemberList,
    Method, Outcome, Redirect,
};
use std::alloc::Global;
use std::io;
use std::time::Instant;

/// A Book of rules 2.
#[derive(Drop)]
pub struct MeasuredBook {
    pub book: Book,
    pub ghost modern: { book.rules ≡ MODERN_RULES },
}

const ASK: Ask = Ask {
    routed: None,
    fresh: true,
    tried: 0,
    disabled: 0,
    stopped: 0,
};

const DONE: Outcome = Outcome {
    kind: Kind::Done,
    bytes: 0,
};

/// Seconds between two maintenances.
const MAINTAIN_SECONDS: u64 = 60;

/// Exchanges between two maintenances.
const STRETCH: u64 = 64;

fn member(alloc: Global, index: u32) -> MemberConfig {
    MemberConfig {
        name: Bytes::new(alloc),
        route: Bytes::new(alloc),
        factor: index % 3 + 1,
        distance: 0,
        activation: Activation::Active,
        redirect: None,
        pool: 64,
    }
}

fn members_of(alloc: Global, count: u32) -> Result<MemberList, NoMemory> {
    let mut members = MemberList::new(alloc);
    for index in 0..count {
        members.push(member(alloc, index))?;
    }
    Ok(members)
}

fn config_of(members: MemberList) -> Result<LbConfig, ConfigError> {
    LbConfig::new(
        Method::Request,
        false,
        false,
        false,
        MAINTAIN_SECONDS,
        MAINTAIN_SECONDS,
        members,
    )
}

fn config(alloc: Global, members: u32) -> Option<LbConfig> {
    match members_of(alloc, members) {
        Ok(members) => config_of(members).ok(),
        Err(NoMemory) => None,
    }
}

/// A Book of rules 2 with this many members.
pub fn book_of(alloc: Global, members: u32) -> Option<MeasuredBook> {
    match Book::start(alloc, config(alloc, members)?, 0, 0) {
        Ok(book) => Some(MeasuredBook { book }),
        Err(NoMemory) => None,
    }
}

/// A choice and its return: two holds. What is refused adds no entry.
pub fn exchange(measured: &mut MeasuredBook, at: u64) {
    if let Ok(Picked { entry: _, lease }) = measured.book.select(0, at, &ASK) {
        if let Some(lease) = lease {
            let _returned = measured.book.give_back(0, at, lease, DONE);
        }
    }
}

fn exchanges(measured: &mut MeasuredBook, at: u64, count: u64) {
    for _ in 0..count {
        exchange(measured, at);
    }
}

/// A new distance of the first member.
fn put_distance(measured: &mut MeasuredBook, at: u64, distance: u32) {
    let change = Change {
        activation: None,
        factor: None,
        distance: Some(distance),
        redirect: Redirect::Keep,
    };
    let _changed = measured
        .book
        .admin(0, at, &Command::Update { member: 0, change });
}

/// A stretch of exchanges, the maintenance that is then due, and a new distance of the first member.
fn stretch(measured: &mut MeasuredBook, number: u64) {
    let at = number.saturating_mul(MAINTAIN_SECONDS);
    exchanges(measured, at, STRETCH);
    let _maintained = measured.book.maintain_if_due(0, at);
    put_distance(measured, at, (number % 2) as u32);
}

fn stretches(measured: &mut MeasuredBook, count: u64) {
    for number in 0..count {
        stretch(measured, number);
    }
}

fn measure_plain(rt: &HostRuntime, measured: &mut MeasuredBook, rounds: u64) -> io::Result<()> {
    let before = measured.book.added();
    let start = Instant::now(rt)?;
    exchanges(measured, 0, rounds);
    let holds = measured.book.added().saturating_sub(before);
    show(rt, "holds of choices and returns", holds, start)
}

fn measure_mixed(rt: &HostRuntime, measured: &mut MeasuredBook, rounds: u64) -> io::Result<()> {
    let before = measured.book.added();
    let start = Instant::now(rt)?;
    stretches(measured, rounds / STRETCH);
    let holds = measured.book.added().saturating_sub(before);
    show(rt, "holds with maintenance and commands", holds, start)
}

/// Measures a Book once it keeps about `kept` entries.
fn measure_filled(
    rt: &HostRuntime,
    measured: &mut MeasuredBook,
    kept: u64,
    rounds: u64,
) -> io::Result<()> {
    exchanges(measured, 0, kept / 2);
    measure_plain(rt, measured, rounds)?;
    measure_mixed(rt, measured, rounds)
}

fn measure_book(rt: &HostRuntime, members: u32, kept: u64, rounds: u64) -> io::Result<()> {
    tell(
        rt,
        &["", " members, ", " entries kept"],
        &[u64::from(members), kept],
    )?;
    match book_of(rt.alloc(), members) {
        Some(mut measured) => measure_filled(rt, &mut measured, kept, rounds),
        None => Err(io::Error::other("the Book can't be made")),
    }
}

pub fn measure(rt: &HostRuntime, rounds: u32) -> io::Result<()> {
    for members in [2, 8, 64] {
        for kept in [0, 10_000, 1_000_000] {
            measure_book(rt, members, kept, u64::from(rounds))?;
        }
    }
    Ok(())
}

/// How many entries a Book of eight members has after this many stretches.
pub fn add_entries(alloc: Global, rounds: u32) -> Option<Done> {
    let mut measured = book_of(alloc, 8)?;
    stretches(&mut measured, u64::from(rounds));
    let added = measured.book.added();
    Some(Done {
        amount: added,
        figures: [added, 0, 0],
    })
}
