//! A command over files, an output and a world in memory.
use crate::doing::{put_checked, status_of};
use crate::told::put_world;
use crate::worlds::world_of;
use check_rows::row::{BlockRow, RowError};
use gear_worlds::MemWorld;
use jk_io::{Bytes, MemFiles, MemLink, NoMemory, NumberList, put_decimal};
use std::alloc::Global;
use std::sync::Wait;
use std::thread::Threads;

/// An output that takes all, or in which a write fails after as many bytes as its row says.
fn output_of(alloc: Global, row: BlockRow<'_>) -> Result<MemLink, RowError> {
    let failing = row.numbers(alloc, "output-fails")?;
    Ok(MemLink::failing_at(alloc, Bytes::new(alloc), NumberList::new(alloc), failing)?)
}

fn files_of(alloc: Global, row: BlockRow<'_>) -> Result<MemFiles, RowError> {
    let failing = row.numbers(alloc, "file-fails")?;
    let files = row.files(alloc)?;
    Ok(MemFiles::new(files, failing))
}

/// Adds what was written; where a row says `checked`, what `check` says of it.
fn put_written(
    alloc: Global,
    row: BlockRow<'_>,
    written: &[u8],
    out: &mut Bytes,
) -> Result<(), NoMemory> {
    if row.count("checked") == 0 {
        return out.extend(written);
    }
    put_checked(alloc, written, out)
}

fn put_status(out: &mut Bytes, status: u8) -> Result<(), NoMemory> {
    out.extend(b"status ")?;
    put_decimal(out, u128::from(status))?;
    out.extend(b"\n")
}

/// Adds what is told of a command after what it wrote: its status, and the world.
fn put_told(status: u8, world: &MemWorld<MemLink>, out: &mut Bytes) -> Result<(), NoMemory> {
    put_status(out, status)?;
    put_world(world, out)
}

fn told_after(
    alloc: Global,
    row: BlockRow<'_>,
    status: u8,
    written: &[u8],
    world: &MemWorld<MemLink>,
) -> Result<Bytes, RowError> {
    let mut told = Bytes::new(alloc);
    put_written(alloc, row, written, &mut told)?;
    put_told(status, world, &mut told)?;
    Ok(told)
}

fn over_output<R: Threads + Wait + Sync>(
    rt: &R,
    alloc: Global,
    row: BlockRow<'_>,
    words: &[Bytes],
    files: &mut MemFiles,
    world: &mut MemWorld<MemLink>,
) -> Result<Bytes, RowError> {
    let mut out = output_of(alloc, row)?;
    let status = status_of(rt, alloc, words, files, &mut out, world);
    told_after(alloc, row, status, out.sent(), world)
}

fn over_files<R: Threads + Wait + Sync>(
    rt: &R,
    alloc: Global,
    row: BlockRow<'_>,
    words: &[Bytes],
    files: &mut MemFiles,
) -> Result<Bytes, RowError> {
    over_output(rt, alloc, row, words, files, &mut world_of(alloc, row)?)
}

fn over_words<R: Threads + Wait + Sync>(
    rt: &R,
    alloc: Global,
    row: BlockRow<'_>,
    words: &[Bytes],
) -> Result<Bytes, RowError> {
    over_files(rt, alloc, row, words, &mut files_of(alloc, row)?)
}

/// What comes out of a row's command.
pub fn told<R: Threads + Wait + Sync>(
    rt: &R,
    alloc: Global,
    row: BlockRow<'_>,
) -> Result<Bytes, RowError> {
    over_words(rt, alloc, row, row.words(alloc)?.as_slice())
}
