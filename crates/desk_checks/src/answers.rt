//! Calls of a Book of rules 2, and what is told of their answers. A call of session 0 goes by the callers that cite the
//! laws.

use check_lines::begin::ModernBook;
use check_lines::calls::{FitOutcome, tell_admin, tell_entry, tell_full, tell_room, tell_stray};
use check_lines::{maintain_lawfully, reset_lawfully, return_lawfully, select_lawfully};
use jk_io::{Bytes, NoMemory};
use lb_book::Picked;
use lb_model::{AdminError, Ask, Command, Entry, FullMark, RoomError, Stray};

fn select(
    modern: &mut ModernBook,
    session: u32,
    at: u64,
    ask: &Ask,
) -> Result<Picked, RoomError<FullMark>> {
    if session == 0 {
        select_lawfully(modern, at, ask)
    } else {
        modern.book.select(session, at, ask)
    }
}

/// The entry of a choice. The ticket stays out.
fn chosen(picked: Picked) -> Entry {
    let Picked { entry, lease } = picked;
    if let Some(lease) = lease {
        let _ticket = lease.into_ticket();
    }
    entry
}

pub fn tell_select(
    modern: &mut ModernBook,
    session: u32,
    at: u64,
    ask: &Ask,
    out: &mut Bytes,
) -> Result<bool, NoMemory> {
    match select(modern, session, at, ask) {
        Ok(picked) => tell_entry(out, &chosen(picked))?,
        Err(error) => tell_room(out, &error)?,
    }
    Ok(true)
}

fn return_ticket(
    modern: &mut ModernBook,
    session: u32,
    at: u64,
    ticket: u64,
    fit: FitOutcome,
) -> Result<Result<Entry, Stray>, NoMemory> {
    if session == 0 {
        return_lawfully(modern, at, ticket, fit)
    } else {
        Ok(modern.book.return_ticket(session, at, ticket, fit.outcome))
    }
}

/// Puts what came of a Return.
pub fn tell_back(back: &Result<Entry, Stray>, out: &mut Bytes) -> Result<bool, NoMemory> {
    match back {
        Ok(entry) => tell_entry(out, entry)?,
        Err(stray) => tell_stray(out, *stray)?,
    }
    Ok(true)
}

pub fn tell_return(
    modern: &mut ModernBook,
    session: u32,
    at: u64,
    ticket: u64,
    fit: FitOutcome,
    out: &mut Bytes,
) -> Result<bool, NoMemory> {
    let back = return_ticket(modern, session, at, ticket, fit)?;
    tell_back(&back, out)
}

fn maintain(
    modern: &mut ModernBook,
    session: u32,
    at: u64,
) -> Result<Option<Entry>, RoomError<FullMark>> {
    if session == 0 {
        maintain_lawfully(modern, at)
    } else {
        modern.book.maintain_if_due(session, at)
    }
}

pub fn tell_maintain(
    modern: &mut ModernBook,
    session: u32,
    at: u64,
    out: &mut Bytes,
) -> Result<bool, NoMemory> {
    match maintain(modern, session, at) {
        Ok(Some(entry)) => tell_entry(out, &entry)?,
        Ok(None) => out.extend(b"not due")?,
        Err(error) => tell_room(out, &error)?,
    }
    Ok(true)
}

fn admin(
    modern: &mut ModernBook,
    session: u32,
    at: u64,
    command: &Command,
) -> Result<Entry, AdminError<FullMark>> {
    match *command {
        Command::Reset { member } if session == 0 => reset_lawfully(modern, at, member),
        _ => modern.book.admin(session, at, command),
    }
}

fn put_refused(error: &AdminError<FullMark>, out: &mut Bytes) -> Result<(), NoMemory> {
    match error {
        AdminError::Full(mark) => tell_full(out, mark),
        other => tell_admin(out, other),
    }
}

pub fn tell_command(
    modern: &mut ModernBook,
    session: u32,
    at: u64,
    command: &Command,
    out: &mut Bytes,
) -> Result<bool, NoMemory> {
    match admin(modern, session, at, command) {
        Ok(entry) => tell_entry(out, &entry)?,
        Err(error) => put_refused(&error, out)?,
    }
    Ok(true)
}
