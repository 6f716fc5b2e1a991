//! A part's work, done and told.

use crate::done::{Done, show, tell};
use crate::parts::{Part, Work};
use crate::{bodies, book, heads, journal, map, replies, requests, site};
use jk_io::{Bytes, NoMemory};
use std::alloc::Global;
use std::io;
use std::time::Instant;

/// Puts the text of a site's file.
fn put(work: Work, text: &mut String, amount: u32) -> Result<(), NoMemory> {
    match work {
        Work::Site => site::put_site(text, u64::from(amount)),
        Work::Map => map::put_map(text, u64::from(amount)),
        Work::Lines => site::put_lines(text, amount),
        Work::Lists => site::put_lists(text, amount),
        _ => Ok(()),
    }
}

fn written(work: Work, alloc: Global, amount: u32) -> Result<Bytes, NoMemory> {
    let mut text = String::new(alloc);
    put(work, &mut text, amount)?;
    Ok(Bytes::from_vec(text.into_bytes()))
}

/// The text that is read, where making it takes long.
fn text_of(work: Work, alloc: Global, amount: u32) -> Option<Bytes> {
    match work {
        Work::Journal => journal::text_of(alloc, amount),
        _ => written(work, alloc, amount).ok(),
    }
}

/// What a text holds: none where it is refused.
fn read(work: Work, alloc: Global, text: &[u8], amount: u32) -> Option<Done> {
    match work {
        Work::Site => site::read_site(alloc, text),
        Work::Map => map::read(alloc, text),
        Work::Lines => site::read_lines(alloc, text),
        Work::Lists => site::read_lists(alloc, text, amount),
        Work::Journal => journal::check(alloc, text),
        _ => None,
    }
}

/// Does a work `rounds` times; None where something is refused.
fn does(work: Work, alloc: Global, text: &[u8], rounds: u32) -> Option<Done> {
    match work {
        Work::WriteRequests => requests::write(alloc, rounds),
        Work::ReadRequests => requests::read(alloc, rounds),
        Work::WriteReplies => replies::write(alloc, rounds),
        Work::ReadReplies => replies::read(alloc, rounds),
        Work::ReadHeads => heads::read(alloc, rounds),
        Work::ReadRow => heads::read_row(alloc, rounds),
        Work::ParseHeads => heads::parse(rounds),
        Work::TakeByLength => bodies::take_by_length(alloc, rounds),
        Work::TakeChunks => bodies::take_chunks(alloc, rounds),
        Work::WriteByLength => bodies::write(alloc, true, rounds),
        Work::WriteChunks => bodies::write(alloc, false, rounds),
        Work::Book => book::add_entries(alloc, rounds),
        _ => read(work, alloc, text, rounds),
    }
}

/// Times a part, and tells what it came to. Its time is shown where an amount was asked for.
fn time(rt: &HostRuntime, part: &Part, text: &[u8], asked: Option<u32>) -> io::Result<()> {
    let start = Instant::now(rt)?;
    let amount = asked.unwrap_or(part.few);
    let Some(done) = does(part.work, rt.alloc(), text, amount) else {
        return Err(io::Error::other("something was refused"));
    };
    tell(rt, part.told, &done.figures)?;
    if asked.is_some() {
        show(rt, part.what, done.amount, start)?;
    }
    Ok(())
}

fn run_over_text(rt: &HostRuntime, part: &Part, asked: Option<u32>) -> io::Result<()> {
    match text_of(part.work, rt.alloc(), asked.unwrap_or(part.few)) {
        Some(text) => time(rt, part, text.as_slice(), asked),
        None => Err(io::Error::other("its text can't be made")),
    }
}

/// Runs a part: a small round, or as much as is asked for.
pub fn run(rt: &HostRuntime, part: &Part, asked: Option<u32>) -> io::Result<()> {
    match (part.work, asked) {
        (Work::Book, Some(rounds)) => book::measure(rt, rounds),
        _ => run_over_text(rt, part, asked),
    }
}
