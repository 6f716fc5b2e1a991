//! A desk of one thread.
ghost use Rattle.std.specs.Prelude.{◌≡◌, None, length};

use crate::exchanged::{FRESH, tell_once, tell_view};
use check_lines::begin::{FreshBook, is_opening_line};
use check_lines::calls::{FitOutcome, call_of, command_of, outcome_of, tell_admin, tell_full};
use check_lines::judging::{Teller, judge_lines};
use check_lines::texts::{first_word, say};
use check_lines::{Once, change_and_look, one_exchange};
use jk_io::{Bytes, NoMemory};
use lb_book::{BookList, Desk, PlainDesk};
use lb_model::{AdminError, Command, Entry, FullMark, RoomError, View};
use std::alloc::Global;

/// A desk over one Book.
#[derive(Drop)]
struct PlainRow {
    desk: PlainDesk,
    ghost one: { length desk.sizes ≡ 1 },
    ghost anyone: { desk.caller ≡ None },
}

fn row_of(alloc: Global, fresh: FreshBook) -> Result<PlainRow, NoMemory> {
    let FreshBook { book } = fresh;
    let mut books = BookList::new(alloc);
    books.push(book)?;
    Ok(PlainRow {
        desk: PlainDesk::new(alloc, books),
    })
}

fn put_once(once: &Once<FullMark>, out: &mut Bytes) -> Result<bool, NoMemory> {
    match once {
        Once::Refused(RoomError::Full(mark)) => tell_full(out, mark)?,
        once => tell_once(once, out)?,
    }
    Ok(true)
}

fn put_view(shown: &View, out: &mut Bytes) -> Result<bool, NoMemory> {
    tell_view(shown, out)?;
    Ok(true)
}

fn put_refused(error: &AdminError<FullMark>, out: &mut Bytes) -> Result<bool, NoMemory> {
    match error {
        AdminError::Full(mark) => tell_full(out, mark)?,
        other => tell_admin(out, other)?,
    }
    Ok(true)
}

impl PlainRow {
    fn exchange(
        &mut self,
        session: u32,
        at: u64,
        fit: FitOutcome,
        out: &mut Bytes,
    ) -> Result<bool, NoMemory> {
        let once = one_exchange(&mut self.desk, 0, session, at, &FRESH, fit.outcome);
        put_once(&once, out)
    }

    fn exchange_as(&mut self, asked: &Entry, out: &mut Bytes) -> Result<bool, NoMemory> {
        match outcome_of(asked) {
            Some(fit) => self.exchange(asked.session, asked.at, fit, out),
            None => Ok(false),
        }
    }

    fn change(
        &mut self,
        session: u32,
        at: u64,
        command: &Command,
        out: &mut Bytes,
    ) -> Result<bool, NoMemory> {
        match change_and_look(&mut self.desk, 0, session, at, command) {
            Ok(shown) => put_view(&shown, out),
            Err(error) => put_refused(&error, out),
        }
    }

    fn change_as(&mut self, asked: &Entry, out: &mut Bytes) -> Result<bool, NoMemory> {
        match command_of(asked) {
            Some(command) => self.change(asked.session, asked.at, &command, out),
            None => Ok(false),
        }
    }

    fn look(&mut self, out: &mut Bytes) -> Result<bool, NoMemory> {
        put_view(&self.desk.look(0)?, out)
    }

    fn call(
        &mut self,
        alloc: Global,
        word: &str,
        call: &str,
        out: &mut Bytes,
    ) -> Result<bool, NoMemory> {
        match call_of(alloc, call)? {
            Some(asked) if word == "exchange" => self.exchange_as(&asked, out),
            Some(asked) if word == "change" => self.change_as(&asked, out),
            _ => Ok(false),
        }
    }
}

impl Teller for PlainRow {
    fn tell(&mut self, alloc: Global, asked: &str, out: &mut Bytes) -> Result<bool, NoMemory> {
        if is_opening_line(asked) {
            return say(out, asked);
        }
        match first_word(asked) {
            ("desk", _) => say(out, asked),
            ("look", _) => self.look(out),
            (word, call) => self.call(alloc, word, call, out),
        }
    }
}

pub fn judge(
    alloc: Global,
    fresh: FreshBook,
    row: &str,
    shown: &mut String,
) -> Result<u64, NoMemory> {
    judge_lines(alloc, &mut row_of(alloc, fresh)?, row, shown)
}
