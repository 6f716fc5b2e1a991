//! Calls of a balancer as a line has them, and what is told of an answer.
//!
//! A call stands as in a journal's line: `SESSION AT CALL`. An entry is told as its line there, and a refusal by its name
//! and its numbers.

ghost use Rattle.std.specs.Prelude.{◌≤◌};
ghost use Rattle.lb_model.specs.declared.journal.TheConstants.{MOST_BYTES};

use crate::texts::{put_given, put_number};
use jk_io::{Bytes, NoMemory};
use journal_text::{Line, put_entry, read_line};
use lb_model::{
    AdminError, Call, Command, Entry, FullMark, MODERN_RULES, MOST_BYTES, Outcome, RoomError, Stray,
};
use std::alloc::Global;

/// How a ticket may come back: its outcome is of at most 2^44 bytes.
#[derive(Clone, Copy)]
pub struct FitOutcome {
    pub outcome: Outcome,
    pub ghost bytes: { outcome.bytes ≤ MOST_BYTES },
}

fn entry_in(line: Option<Line>) -> Option<Entry> {
    match line {
        Some(Line::Entry(entry)) => Some(entry),
        _ => None,
    }
}

/// The entry of a journal's line.
fn entry_of(alloc: Global, line: &[u8]) -> Result<Option<Entry>, NoMemory> {
    Ok(entry_in(read_line(alloc, MODERN_RULES, line)?))
}

/// Puts a session's call as the line of an entry whose number and answer mean nothing.
fn put_call(line: &mut Bytes, call: &str) -> Result<(), NoMemory> {
    line.extend(b"e 0 ")?;
    line.extend(call.as_bytes())?;
    line.extend(b" done")
}

/// A session's call at a moment, as an entry whose number and answer mean nothing.
pub fn call_of(alloc: Global, call: &str) -> Result<Option<Entry>, NoMemory> {
    let mut line = Bytes::new(alloc);
    put_call(&mut line, call)?;
    entry_of(alloc, line.as_slice())
}

/// What a line asks for: `e` and a journal's line, or `no` and a call.
pub fn asked_call(alloc: Global, asked: &str) -> Result<Option<Entry>, NoMemory> {
    match asked.strip_prefix("no ") {
        Some(call) => call_of(alloc, call),
        None => entry_of(alloc, asked.as_bytes()),
    }
}

/// The command of a call, where it is one.
pub fn command_of(entry: &Entry) -> Option<Command> {
    match entry.call {
        Call::Admin(command) => Some(command),
        Call::Select(_) | Call::Return { .. } | Call::Maintain => None,
    }
}

/// How the ticket of a call comes back, where it is a Return of at most 2^44 bytes.
pub fn outcome_of(entry: &Entry) -> Option<FitOutcome> {
    match entry.call {
        Call::Return { ticket: _, outcome } if outcome.bytes <= MOST_BYTES => {
            Some(FitOutcome { outcome })
        }
        _ => None,
    }
}

/// Puts the line of an entry.
pub fn tell_entry(out: &mut Bytes, entry: &Entry) -> Result<(), NoMemory> {
    put_entry(out, MODERN_RULES, entry)
}

pub fn tell_full(out: &mut Bytes, mark: &FullMark) -> Result<(), NoMemory> {
    put_number(out, "full ", mark.next)?;
    put_number(out, " ", mark.out)
}

/// Puts a refusal for want of room. Want of memory is an error here.
pub fn tell_room(out: &mut Bytes, error: &RoomError<FullMark>) -> Result<(), NoMemory> {
    match error {
        RoomError::Full(mark) => tell_full(out, mark),
        RoomError::NoMemory => Err(NoMemory),
    }
}

/// Puts a command's refusal by its number.
pub fn tell_admin<M>(out: &mut Bytes, error: &AdminError<M>) -> Result<(), NoMemory> {
    match error {
        AdminError::UnknownMember => out.extend(b"refused 1"),
        AdminError::BadValue => out.extend(b"refused 2"),
        AdminError::TooWide(_) => out.extend(b"refused 3"),
        AdminError::Full(_) => out.extend(b"full"),
        AdminError::NoMemory => Err(NoMemory),
    }
}

pub fn tell_stray(out: &mut Bytes, stray: Stray) -> Result<(), NoMemory> {
    put_number(out, "stray ", stray.ticket)?;
    put_given(out, " returned at ", stray.returned_at)
}
