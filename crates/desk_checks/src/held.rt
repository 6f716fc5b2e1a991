//! A Book of rules 2, and what is told of it.

use crate::answers::{tell_back, tell_command, tell_maintain, tell_return, tell_select};
use crate::queries::commands_asked;
use check_lines::begin::{ModernBook, resume};
use check_lines::calls::{FitOutcome, asked_call, call_of, outcome_of};
use check_lines::cite_bounds;
use check_lines::texts::{first_word, long, put_number, say};
use jk_io::{Bytes, NoMemory};
use lb_book::{Book, Picked};
use lb_model::{Ask, Call, Command, Entry, Segment, Stray};
use play_script::put_rows;
use std::alloc::Global;

/// What a fresh session asks.
const FRESH: Ask = Ask {
    routed: None,
    fresh: true,
    tried: 0,
    disabled: 0,
    stopped: 0,
};

fn tell_returned(
    modern: &mut ModernBook,
    asked: &Entry,
    ticket: u64,
    out: &mut Bytes,
) -> Result<bool, NoMemory> {
    match outcome_of(asked) {
        Some(fit) => tell_return(modern, asked.session, asked.at, ticket, fit, out),
        None => Ok(false),
    }
}

fn tell_call(modern: &mut ModernBook, asked: &Entry, out: &mut Bytes) -> Result<bool, NoMemory> {
    match &asked.call {
        Call::Select(ask) => tell_select(modern, asked.session, asked.at, ask, out),
        Call::Return { ticket, .. } => tell_returned(modern, asked, *ticket, out),
        Call::Maintain => tell_maintain(modern, asked.session, asked.at, out),
        Call::Admin(command) => tell_command(modern, asked.session, asked.at, command, out),
    }
}

fn tell_asked(
    alloc: Global,
    modern: &mut ModernBook,
    asked: &str,
    out: &mut Bytes,
) -> Result<bool, NoMemory> {
    match asked_call(alloc, asked)? {
        Some(entry) => tell_call(modern, &entry, out),
        None => Ok(false),
    }
}

/// Selects for a fresh session, and gives the lease back: the member, and how it comes back.
fn lent(
    modern: &mut ModernBook,
    session: u32,
    at: u64,
    fit: FitOutcome,
) -> Option<(u32, Result<Entry, Stray>)> {
    let Ok(Picked { entry: _, lease }) = modern.book.select(session, at, &FRESH) else {
        return None;
    };
    let lease = lease?;
    let member = lease.member();
    Some((
        member,
        modern.book.give_back(session, at, lease, fit.outcome),
    ))
}

fn put_lent(member: u32, back: &Result<Entry, Stray>, out: &mut Bytes) -> Result<bool, NoMemory> {
    put_number(out, "member ", u64::from(member))?;
    out.extend(b", ")?;
    tell_back(back, out)
}

fn lend(
    modern: &mut ModernBook,
    asked: &Entry,
    fit: FitOutcome,
    out: &mut Bytes,
) -> Result<bool, NoMemory> {
    match lent(modern, asked.session, asked.at, fit) {
        Some((member, back)) => put_lent(member, &back, out),
        None => Ok(false),
    }
}

fn tell_lend(modern: &mut ModernBook, asked: &Entry, out: &mut Bytes) -> Result<bool, NoMemory> {
    match outcome_of(asked) {
        Some(fit) => lend(modern, asked, fit, out),
        None => Ok(false),
    }
}

fn tell_lent(
    alloc: Global,
    modern: &mut ModernBook,
    call: &str,
    out: &mut Bytes,
) -> Result<bool, NoMemory> {
    match call_of(alloc, call)? {
        Some(asked) => tell_lend(modern, &asked, out),
        None => Ok(false),
    }
}

/// As `lent`, so many times, one after the other. False where one of them isn't done.
fn lent_often(modern: &mut ModernBook, times: u64, asked: &Entry, fit: FitOutcome) -> bool {
    for _ in 0..times {
        match lent(modern, asked.session, asked.at, fit) {
            Some((_, Ok(_))) => {}
            _ => return false,
        }
    }
    true
}

fn lend_often(modern: &mut ModernBook, times: u64, asked: &Entry) -> bool {
    match outcome_of(asked) {
        Some(fit) => lent_often(modern, times, asked, fit),
        None => false,
    }
}

/// Tells that `TIMES CALL` was done: so many choices, each given back.
fn tell_pairs(
    alloc: Global,
    modern: &mut ModernBook,
    rest: &str,
    out: &mut Bytes,
) -> Result<bool, NoMemory> {
    let (times, call) = first_word(rest);
    match (long(times), call_of(alloc, call)?) {
        (Some(times), Some(asked)) => {
            out.extend(b"done")?;
            Ok(lend_often(modern, times, &asked))
        }
        _ => Ok(false),
    }
}

fn put_segment(segment: &Segment, out: &mut Bytes) -> Result<bool, NoMemory> {
    put_number(out, "", segment.entries.len() as u64)?;
    put_number(out, " from ", segment.opening.next)?;
    Ok(true)
}

/// Cuts the journal: how many entries go, and from which number on.
fn tell_cut(modern: &mut ModernBook, out: &mut Bytes) -> Result<bool, NoMemory> {
    put_segment(&modern.book.cut()?, out)
}

/// A Book that goes on from the opening that this one has, without its entries.
fn reopened(book: &Book) -> Result<Option<ModernBook>, NoMemory> {
    let Segment { opening, .. } = book.segment()?;
    resume(opening)
}

fn reopen(modern: &mut ModernBook, out: &mut Bytes) -> Result<bool, NoMemory> {
    match reopened(&modern.book)? {
        Some(next) => {
            *modern = next;
            say(out, "reopen")
        }
        None => Ok(false),
    }
}

fn do_commands(
    modern: &mut ModernBook,
    commands: &[Command],
    out: &mut Bytes,
) -> Result<bool, NoMemory> {
    for command in commands {
        tell_command(modern, 0, 0, command, out)?;
    }
    Ok(true)
}

/// What a query changes: each command that it asks for is done.
fn tell_query(
    alloc: Global,
    modern: &mut ModernBook,
    lines: &[u8],
    query: &str,
    out: &mut Bytes,
) -> Result<bool, NoMemory> {
    match commands_asked(alloc, lines, query)? {
        Some(commands) => do_commands(modern, commands.as_slice(), out),
        None => Ok(false),
    }
}

/// Puts the members as they are.
fn tell_rows(book: &Book, out: &mut Bytes) -> Result<bool, NoMemory> {
    put_rows(out, book.view()?.rows.as_slice())?;
    Ok(true)
}

fn tell_bounds(book: &Book, out: &mut Bytes) -> Result<bool, NoMemory> {
    cite_bounds(book)?;
    say(out, "bounds")
}

fn number_of(book: &Book, word: &str) -> Option<u64> {
    match word {
        "next" => Some(book.next()),
        "kept" => Some(book.kept()),
        "added" => Some(book.added()),
        _ => None,
    }
}

fn tell_number(book: &Book, word: &str, out: &mut Bytes) -> Result<bool, NoMemory> {
    match number_of(book, word) {
        Some(number) => {
            put_number(out, "", number)?;
            Ok(true)
        }
        None => Ok(false),
    }
}

/// Tells what a word asks of a Book, which stays as it is.
fn tell_state(book: &Book, word: &str, out: &mut Bytes) -> Result<bool, NoMemory> {
    match word {
        "show" => tell_rows(book, out),
        "bounds" => tell_bounds(book, out),
        _ => tell_number(book, word, out),
    }
}

/// Tells what comes of a line; the Book began with the opening of these lines.
pub fn tell_held(
    alloc: Global,
    modern: &mut ModernBook,
    asked: &str,
    lines: &[u8],
    out: &mut Bytes,
) -> Result<bool, NoMemory> {
    let (word, rest) = first_word(asked);
    match word {
        "e" | "no" => tell_asked(alloc, modern, asked, out),
        "lend" => tell_lent(alloc, modern, rest, out),
        "pairs" => tell_pairs(alloc, modern, rest, out),
        "do" => tell_query(alloc, modern, lines, rest, out),
        "cut" => tell_cut(modern, out),
        "reopen" => reopen(modern, out),
        _ => tell_state(&modern.book, word, out),
    }
}
