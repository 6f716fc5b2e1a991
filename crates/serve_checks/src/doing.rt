//! The order of a row, done over memory.
use gear_worlds::MemWorld;
use jk_cli::{Order, read_words};
use jk_commands::{let_go, run_jkd};
use jk_io::{Bytes, FileList, MemFiles, MemLink, NoMemory, NumberList};
use plain_commands::run_plain;
use std::alloc::Global;
use std::sync::Wait;
use std::thread::Threads;

fn link_with(alloc: Global, text: &[u8]) -> Result<MemLink, NoMemory> {
    let text = Bytes::from_slice(alloc, text)?;
    Ok(MemLink::new(alloc, text, NumberList::new(alloc)))
}

/// Adds what `check` says of a journal's text.
pub fn put_checked(alloc: Global, text: &[u8], out: &mut Bytes) -> Result<(), NoMemory> {
    let mut input = link_with(alloc, text)?;
    let mut files = MemFiles::new(FileList::new(alloc), NumberList::new(alloc));
    let mut said = link_with(alloc, b"")?;
    let_go(run_plain(alloc, &Order::Check, &mut files, &mut input, &mut said));
    out.extend(said.sent())
}

/// Does what the words ask for, over an input with nothing in it, and answers the status.
pub fn status_of<R: Threads + Wait + Sync>(
    rt: &R,
    alloc: Global,
    words: &[Bytes],
    files: &mut MemFiles,
    out: &mut MemLink,
    world: &mut MemWorld<MemLink>,
) -> u8 {
    let mut input = MemLink::new(alloc, Bytes::new(alloc), NumberList::new(alloc));
    let asked = read_words(alloc, words);
    let (end, site) = run_jkd(rt, alloc, &asked, files, &mut input, out, world);
    let_go(asked);
    let_go(site);
    let status = end.status();
    let_go(end);
    status
}
