//! Objects in memory fail where they were told to, and nowhere else.

use crate::lists::link_of;
use check_rows::pass_on;
use check_rows::row::BlockRow;
use check_rows::telling::{put_bytes, put_count, put_shown, put_word};
use check_rows::texts::{bytes_of, numbers_of};
use jk_io::{
    Bytes, ClientList, Clock, Dial, FileList, Files, MemDial, MemDoor, MemFiles, MemLink,
    MemLinkList, NoMemory, Peer, StepClock,
};
use std::alloc::Global;

pub fn tell(alloc: Global, row: BlockRow<'_>, out: &mut String) -> Result<(), NoMemory> {
    match row.word("kind") {
        "door" => tell_door(alloc, &mut door_of(alloc, row.word("fails"))?, out),
        "files" => tell_named(alloc, row.word("fails"), row.word("names"), out),
        "clock" => tell_moments(alloc, row.word("moments"), out),
        _ => tell_dial(alloc, &mut dial_of(alloc, row.word("fails"))?, out),
    }
}

fn client(alloc: Global) -> Result<(MemLink, Peer), NoMemory> {
    let addr = Bytes::new(alloc);
    Ok((link_of(alloc, b"")?, Peer { addr }))
}

fn clients(alloc: Global) -> Result<ClientList<MemLink>, NoMemory> {
    let mut clients = ClientList::new(alloc);
    clients.push(client(alloc)?)?;
    Ok(clients)
}

/// A door with one client. The accepts of `failing` fail.
fn door_of(alloc: Global, failing: &str) -> Result<MemDoor<MemLink>, NoMemory> {
    let failing = numbers_of(alloc, failing)?;
    Ok(MemDoor::new(alloc, clients(alloc)?, failing))
}

/// What three accepts answer, and how many links were left; each link is left before the next accept.
fn tell_door(alloc: Global, door: &mut MemDoor<MemLink>, out: &mut String) -> Result<(), NoMemory> {
    for _ in 0..3 {
        let passed = pass_on(alloc, door);
        put_shown(out, &passed)?;
    }
    put_count(out, "left", door.left().len() as u64)
}

fn named(alloc: Global, name: &[u8], text: &[u8]) -> Result<(Bytes, Bytes), NoMemory> {
    let name = Bytes::from_slice(alloc, name)?;
    Ok((name, Bytes::from_slice(alloc, text)?))
}

fn one_file(alloc: Global) -> Result<FileList, NoMemory> {
    let mut files = FileList::new(alloc);
    files.push(named(alloc, b"data", b"kept")?)?;
    Ok(files)
}

/// A file named data. The reads of `failing` fail.
fn files_of(alloc: Global, failing: &str) -> Result<MemFiles, NoMemory> {
    let failing = numbers_of(alloc, failing)?;
    Ok(MemFiles::new(one_file(alloc)?, failing))
}

fn tell_named(alloc: Global, failing: &str, names: &str, out: &mut String) -> Result<(), NoMemory> {
    tell_files(alloc, &mut files_of(alloc, failing)?, names, out)
}

/// What a read of each of these files answers.
pub fn tell_files<F: Files>(
    alloc: Global,
    files: &mut F,
    names: &str,
    out: &mut String,
) -> Result<(), NoMemory> {
    for name in names.split(" & ") {
        tell_file(alloc, files, &bytes_of(alloc, name)?, out)?;
    }
    Ok(())
}

fn tell_file<F: Files>(
    alloc: Global,
    files: &mut F,
    name: &Bytes,
    out: &mut String,
) -> Result<(), NoMemory> {
    match files.read_file(alloc, name) {
        Ok(bytes) => put_bytes(out, bytes.as_slice()),
        Err(error) => put_shown(out, &error),
    }
}

fn tell_moments(alloc: Global, answers: &str, out: &mut String) -> Result<(), NoMemory> {
    tell_clock(&mut StepClock::new(numbers_of(alloc, answers)?), out)
}

fn tell_clock(clock: &mut StepClock, out: &mut String) -> Result<(), NoMemory> {
    for _ in 0..3 {
        put_shown(out, &clock.now())?;
    }
    Ok(())
}

/// A dial whose dials of `failing` fail, and whose links have nothing to come.
fn dial_of(alloc: Global, failing: &str) -> Result<MemDial, NoMemory> {
    Ok(MemDial::new(MemLinkList::new(alloc), numbers_of(alloc, failing)?))
}

/// What two dials answer.
fn tell_dial(alloc: Global, dial: &mut MemDial, out: &mut String) -> Result<(), NoMemory> {
    let host = Bytes::new(alloc);
    for _ in 0..2 {
        let dialled = dial.dial(alloc, &host, 1).is_ok();
        put_word(out, if dialled { "ok" } else { "failed" })?;
    }
    Ok(())
}
