//! Lines on standard error, at most one a second of a kind.
ghost use Rattle.std.specs.Prelude.{◌≡◌, ◌↔◌, ◌++◌, [], IfOk, IsTrue, None, OnOk, codes, if◌then◌else◌};
ghost use Rattle.std.specs.List.{flat_map, list_any};
ghost use Rattle.real_io.specs.Notices.{AsksBack, IsDueAfter, is_at, member_text, name_at};

use crate::member_address::MemberAddress;
use crate::moments::moment;
use jk_io::{Bytes, NoMemory, put_decimal};
use libc::write;
use std::alloc::Global;
use std::io;
use std::sync::atomic::{AtomicU64, Ordering};
use std::sync::{Arc, Mutex};

/// The milliseconds between two lines of a kind.
const APART_MILLIS: u64 = 1_000;

/// What is said of a file that can't be written yet.
const RETRIED: &str = "it is tried again for a minute";

/// What is said of a file that can't be written any more.
const GIVEN_UP: &str = "its worker ends";

/// When a line of a kind was said last, and how many were left out since.
#[derive(Clone, Copy)]
pub struct Tally {
    pub last: Option<u64>,
    pub left_out: u64,
}

impl Tally {
    /// No line was said yet.
    pub fn new() -> Tally
        ensures { result ≡ record { last = None; left_out = 0 } }
    {
        Tally {
            last: None,
            left_out: 0,
        }
    }

    /// Whether a line is said at this moment, and how many were left out before it.
    pub fn ask(&mut self, now: u64) -> Option<u64>
        ensures { AsksBack self.old now self.new result }
    {
        if !is_due(self.last, now) {
            self.left_out = self.left_out.saturating_add(1);
            return None;
        }
        let left_out = self.left_out;
        self.last = Some(now);
        self.left_out = 0;
        Some(left_out)
    }
}

// Whether a second has passed since a line.
fn is_due(last: Option<u64>, now: u64) -> bool
    ensures { IsTrue result ↔ IsDueAfter last now }
{
    match last {
        Some(last) => now.saturating_sub(last) >= APART_MILLIS,
        None => true,
    }
}

/// Why a member fails.
#[derive(Clone, Copy)]
pub(crate) enum Failure<'a> {
    /// It can't be reached, for this reason of the system.
    Unreached(&'a io::Error),
    /// Its link broke, for this reason of the system.
    Broken(&'a io::Error),
    /// It didn't answer, or took nothing, in time.
    Silent,
    /// It closed its link where an answer was waited for.
    Closed,
    /// Its first bytes begin no packet.
    Strange,
}

/// The name of a worker that is reached at an address.
#[derive(Drop)]
struct Named {
    address: MemberAddress,
    name: Bytes,
}

/// A member that failed, and wasn't seen to serve since.
#[derive(Drop)]
struct Lost {
    address: MemberAddress,
    /// It couldn't be reached; else its link failed.
    by_dial: bool,
}

/// The members that fail, and the lines that say so.
#[derive(Drop)]
struct Members {
    names: Vec<Named>,
    lost: Vec<Lost>,
    unreached: Tally,
    failed: Tally,
    back: Tally,
    unkept: Tally,
    given_up: Tally,
}

/// What is said of members that fail, that they are back, and of files that can't be written. It is shared by all dials of a
/// front, their links and its shelves.
#[derive(Drop)]
pub struct Notices {
    alloc: Global,
    members: Arc<Mutex<Members>>,
    /// How many members are lost.
    lost: Arc<AtomicU64>,
}

impl Notices {
    pub fn new(alloc: Global) -> Result<Notices, NoMemory> {
        let members = Members {
            names: Vec::new(alloc),
            lost: Vec::new(alloc),
            unreached: Tally::new(),
            failed: Tally::new(),
            back: Tally::new(),
            unkept: Tally::new(),
            given_up: Tally::new(),
        };
        Ok(Notices {
            alloc,
            members: Arc::new(alloc, Mutex::new(members))?,
            lost: Arc::new(alloc, AtomicU64::new(0))?,
        })
    }

    /// The same ones, for another dial or link.
    pub fn share(&self) -> Result<Notices, NoMemory> {
        Ok(Notices {
            alloc: self.alloc,
            members: self.members.clone()?,
            lost: self.lost.clone()?,
        })
    }

    /// The worker of this name is reached at this address.
    pub fn name(&self, host: &Bytes, port: u16, name: &Bytes) -> Result<(), NoMemory> {
        let address = MemberAddress::of(host, port)?;
        match self.members.try_lock() {
            Some(mut members) if !members.has_name(&address, name) => {
                let name = name.copy()?;
                Ok(members.names.push(Named { address, name })?)
            }
            _ => Ok(()),
        }
    }

    /// A file can't be written, for this reason of the system, and is tried again. Want of memory leaves a line out.
    pub fn unkept(&self, path: &str, reason: &io::Error) {
        if let Some(mut members) = self.members.try_lock()
            && let Some(left_out) = members.unkept.ask(moment())
        {
            let _ = say_unkept(self.alloc, path, reason, RETRIED, left_out);
        }
    }

    /// A file couldn't be written, for this reason of the system, and its worker ends. Want of memory leaves a line out.
    pub fn given_up(&self, path: &str, reason: &io::Error) {
        if let Some(mut members) = self.members.try_lock()
            && let Some(left_out) = members.given_up.ask(moment())
        {
            let _ = say_unkept(self.alloc, path, reason, GIVEN_UP, left_out);
        }
    }

    // A member fails. Want of memory leaves a line out.
    pub(crate) fn fails(&self, address: &MemberAddress, failure: Failure<'_>) {
        if let Some(mut members) = self.members.try_lock() {
            let by_dial = matches!(failure, Failure::Unreached(_));
            let _ = members.note_lost(address, by_dial);
            self.lost.store(members.lost.len() as u64, Ordering::SeqCst);
            if let Some(left_out) = members.tally_of(by_dial).ask(moment()) {
                let _ = members.say_lost(self.alloc, address, failure, left_out);
            }
        }
    }

    // A member was reached, or where `serves` is true it gave bytes, as it does where it serves.
    pub(crate) fn is_there(&self, address: &MemberAddress, serves: bool) {
        if self.lost.load(Ordering::SeqCst) == 0 {
            return;
        }
        if let Some(mut members) = self.members.try_lock()
            && members.forget(address, serves)
        {
            self.lost.store(members.lost.len() as u64, Ordering::SeqCst);
            if let Some(left_out) = members.back.ask(moment()) {
                let _ = members.say_back(self.alloc, address, left_out);
            }
        }
    }
}

impl Members {
    fn has_name(&self, address: &MemberAddress, name: &Bytes) -> bool {
        self.names
            .iter()
            .any(|named| named.address.is(address) && named.name == *name)
    }

    // Which lines a failure belongs to.
    fn tally_of(&mut self, by_dial: bool) -> &mut Tally {
        if by_dial {
            &mut self.unreached
        } else {
            &mut self.failed
        }
    }

    // The place of a member that is lost.
    fn place_of(&self, address: &MemberAddress) -> Option<usize> {
        self.lost.iter().position(|lost| lost.address.is(address))
    }

    fn note_lost(&mut self, address: &MemberAddress, by_dial: bool) -> Result<(), NoMemory> {
        match self.place_of(address) {
            Some(place) if place < self.lost.len() => self.lost[place].by_dial = by_dial,
            _ => {
                let address = address.copy()?;
                self.lost.push(Lost { address, by_dial })?;
            }
        }
        Ok(())
    }

    // Whether it was lost until now: one whose link failed is, until it serves.
    fn forget(&mut self, address: &MemberAddress, serves: bool) -> bool {
        match self.place_of(address) {
            Some(place) if place < self.lost.len() && (serves || self.lost[place].by_dial) => {
                drop(self.lost.swap_remove(place));
                true
            }
            _ => false,
        }
    }

    fn say_lost(
        &self,
        alloc: Global,
        address: &MemberAddress,
        failure: Failure<'_>,
        left_out: u64,
    ) -> Result<(), NoMemory> {
        let mut line = Bytes::from_slice(alloc, b"jkd: ")?;
        put_member(&mut line, self.names.as_slice(), address)?;
        put_failure(alloc, &mut line, failure)?;
        end_line(&mut line, left_out)
    }

    fn say_back(
        &self,
        alloc: Global,
        address: &MemberAddress,
        left_out: u64,
    ) -> Result<(), NoMemory> {
        let mut line = Bytes::from_slice(alloc, b"jkd: ")?;
        put_member(&mut line, self.names.as_slice(), address)?;
        line.extend(b" is back")?;
        end_line(&mut line, left_out)
    }
}

// Whether a worker is reached at an address.
fn is_at(worker: &Named, address: &MemberAddress) -> bool
    ensures { result ≡ is_at address.now worker.now }
{
    worker.address.is(address)
}

// Puts the name of a worker, if it is reached at an address.
fn put_name(line: &mut Bytes, worker: &Named, address: &MemberAddress) -> Result<(), NoMemory>
    ensures { OnOk result (line.new ≡ line.old ++ name_at address.now worker.now) }
{
    if !is_at(worker, address) {
        return Ok(());
    }
    line.extend(worker.name.as_slice())?;
    line.push(b' ')
}

// Puts the names of the workers that are reached at an address.
fn put_names(line: &mut Bytes, workers: &[Named], address: &MemberAddress) -> Result<(), NoMemory>
    ensures { OnOk result (line.new ≡ line.old ++ flat_map (name_at address.now) workers.now) }
{
    for worker in workers {
        put_name(line, worker, address)?;
    }
    Ok(())
}

// Whether a worker is known that is reached at an address.
fn is_known(workers: &[Named], address: &MemberAddress) -> bool
    ensures { result ≡ list_any (is_at address.now) workers.now }
{
    workers.iter().any(|worker| is_at(worker, address))
}

// Puts the end of the names, if there are some.
fn put_at(line: &mut Bytes, workers: &[Named], address: &MemberAddress) -> Result<(), NoMemory>
    ensures { OnOk result (line.new ≡ line.old ++ (if list_any (is_at address.now) workers.now then codes "at " else [])) }
{
    if is_known(workers, address) {
        line.extend(b"at ")
    } else {
        Ok(())
    }
}

// Puts the names of the workers at an address, if they are known, and the address.
fn put_member(line: &mut Bytes, workers: &[Named], address: &MemberAddress) -> Result<(), NoMemory>
    ensures { OnOk result (line.new ≡ line.old ++ member_text workers.now address.now) }
{
    put_names(line, workers, address)?;
    put_at(line, workers, address)?;
    line.extend(address.host.as_slice())?;
    line.push(b':')?;
    put_decimal(line, u128::from(address.port))
}

fn say_unkept(
    alloc: Global,
    path: &str,
    reason: &io::Error,
    what: &str,
    left_out: u64,
) -> Result<(), NoMemory> {
    let text = format!(in alloc; "jkd: can't write {path}: {reason}; {what}")?;
    let mut line = Bytes::from_vec(text.into_bytes());
    end_line(&mut line, left_out)
}

fn put_failure(alloc: Global, line: &mut Bytes, failure: Failure<'_>) -> Result<(), NoMemory> {
    match failure {
        Failure::Unreached(reason) => {
            let reason = format!(in alloc; " can't be reached: {reason}")?;
            line.extend(reason.as_bytes())
        }
        Failure::Broken(reason) => {
            let reason = format!(in alloc; " failed: {reason}")?;
            line.extend(reason.as_bytes())
        }
        Failure::Silent => line.extend(b" failed: no answer in time"),
        Failure::Closed => line.extend(b" failed: it closed the link"),
        Failure::Strange => line.extend(b" failed: it doesn't speak AJP"),
    }
}

// Writes a line to standard error, which may be closed, with how many were left out before it.
fn end_line(line: &mut Bytes, left_out: u64) -> Result<(), NoMemory> {
    if left_out != 0 {
        line.extend(b" (left out before: ")?;
        put_decimal(line, u128::from(left_out))?;
        line.push(b')')?;
    }
    line.push(b'\n')?;
    write(2, line.as_slice());
    Ok(())
}

/// A member, of which it is said that it fails.
#[derive(Drop)]
pub(crate) struct Watched {
    notices: Notices,
    address: MemberAddress,
}

impl Watched {
    pub fn new(notices: &Notices, address: MemberAddress) -> Result<Watched, NoMemory>
        ensures { IfOk result (λ watched. watched.address ≡ address) }
    {
        Ok(Watched {
            notices: notices.share()?,
            address,
        })
    }

    /// It fails.
    pub fn fails(&self, failure: Failure<'_>) {
        self.notices.fails(&self.address, failure);
    }

    /// It gave bytes.
    pub fn serves(&self) {
        self.notices.is_there(&self.address, true);
    }
}
