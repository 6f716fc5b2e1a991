//! How fast a workers.properties is read: one that has a directive a line, of workers that each refer to the next
//! one; one of short lines without effect; and one of balancers that borrow one long list of members.

use crate::done::Done;
use jk_io::{MAX_INPUT_BYTES, NoMemory};
use site_workers::{Config, read_workers};
use std::alloc::Global;
use std::fmt::Write;

/// No line of a text is longer.
pub const LINE_BYTES: u64 = 64;

/// How many bytes a site has for each worker.
const BYTES_OF_A_WORKER: u64 = 100;

/// The most workers of a site.
const MOST_WORKERS: u64 = 100_000;

/// What a worker's lines set in turn.
const DIRECTIVES: [&str; 4] = ["host=h", "port=8009", "lbfactor=2", "socket_timeout=60"];

/// The lines of the long list.
const LIST_LINES: u32 = 500;

/// Fills a text up to `bytes` bytes with a comment.
pub fn put_comment(text: &mut String, bytes: u64) -> Result<(), NoMemory> {
    for _ in text.len() as u64..bytes {
        text.push_str("#")?;
    }
    Ok(())
}

/// The first worker is listed, and each refers to the next one.
fn put_workers(text: &mut String, workers: u64) -> Result<(), NoMemory> {
    text.push_str("worker.list=w0")?;
    for i in 1..workers {
        write!(text, "\nworker.w{}.reference=worker.w{i}", i - 1)?;
    }
    Ok(())
}

fn put_directive(text: &mut String, i: u64, workers: u64) -> Result<(), NoMemory> {
    let directive = DIRECTIVES[(i / workers.max(1) % 4) as usize];
    write!(text, "\nworker.w{}.{directive}", i % workers.max(1))?;
    Ok(())
}

/// Directives of all workers, as long as one more line fits into `bytes` bytes.
fn put_directives(text: &mut String, workers: u64, bytes: u64) -> Result<(), NoMemory> {
    for i in 0..bytes {
        if bytes.saturating_sub(text.len() as u64) < LINE_BYTES {
            break;
        }
        put_directive(text, i, workers)?;
    }
    Ok(())
}

/// A text of `bytes` bytes: the first worker is listed, each refers to the next one, directives of all workers follow,
/// and a comment fills the rest.
pub fn put_site(text: &mut String, bytes: u64) -> Result<(), NoMemory> {
    let workers = (bytes / BYTES_OF_A_WORKER).min(MOST_WORKERS);
    put_workers(text, workers)?;
    put_directives(text, workers, bytes)?;
    text.push_str("\n")?;
    put_comment(text, bytes)
}

/// This many short lines without effect.
pub fn put_lines(text: &mut String, lines: u32) -> Result<(), NoMemory> {
    for _ in 0..lines {
        text.push_str("a=b\n")?;
    }
    Ok(())
}

/// A balancer with a list that names two members again and again.
fn put_list(text: &mut String) -> Result<(), NoMemory> {
    text.push_str("worker.a.host=h\nworker.b.host=i\nworker.w0.type=lb\nworker.list=w0\n")?;
    for _ in 0..LIST_LINES {
        text.push_str("worker.w0.balance_workers=a,b\n")?;
    }
    Ok(())
}

/// This many balancers: each has the list of the first one.
pub fn put_lists(text: &mut String, balancers: u32) -> Result<(), NoMemory> {
    put_list(text)?;
    for i in 1..balancers {
        write!(text, "worker.w{i}.reference=worker.w0\nworker.list=w{i}\n")?;
    }
    Ok(())
}

fn counts_of(config: &Config) -> (u64, u64) {
    (config.lbs.len() as u64, config.ignored.len() as u64)
}

/// How many balancers and how many ignored lines a text has.
fn counts_in(alloc: Global, text: &[u8]) -> Option<(u64, u64)> {
    if text.len() > MAX_INPUT_BYTES {
        return None;
    }
    match read_workers(alloc, text) {
        Ok(config) => Some(counts_of(&config)),
        Err(_) => None,
    }
}

pub fn read_site(alloc: Global, text: &[u8]) -> Option<Done> {
    let bytes = text.len() as u64;
    let (balancers, ignored) = counts_in(alloc, text)?;
    Some(Done {
        amount: bytes,
        figures: [bytes, balancers, ignored],
    })
}

pub fn read_lines(alloc: Global, text: &[u8]) -> Option<Done> {
    let (balancers, ignored) = counts_in(alloc, text)?;
    Some(Done {
        amount: text.len() as u64,
        figures: [balancers, ignored, 0],
    })
}

pub fn read_lists(alloc: Global, text: &[u8], amount: u32) -> Option<Done> {
    let (balancers, ignored) = counts_in(alloc, text)?;
    Some(Done {
        amount: u64::from(amount),
        figures: [balancers, ignored, 0],
    })
}
