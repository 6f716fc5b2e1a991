//! Rows of openings: whether one is valid, and whether it is with values changed.

use crate::states::{activation_of, state_of};
use check_lines::begin::{is_opening_line, opening_of};
use check_lines::judging::{Teller, judge_lines};
use check_lines::texts::{first_word, given, long, put_line, say, short, words_of};
use jk_io::{Bytes, NoMemory};
use lb_model::{MemberRow, Opening};
use std::alloc::Global;

/// A row of openings as far as it is taken.
#[derive(Drop)]
struct OpeningRow {
    lines: Bytes,
}

/// Changes what is shown of how a member is set. None where the words say nothing.
fn change_terms(row: &mut MemberRow, field: &str, value: &str) -> Option<()> {
    match field {
        "activation" => row.activation = activation_of(value)?,
        "factor" => row.factor = short(value)?,
        "distance" => row.distance = short(value)?,
        "redirect" => row.redirect = given(value)?,
        _ => return None,
    }
    Some(())
}

/// Changes what is shown of a member. None where the words say nothing.
fn change_row(row: &mut MemberRow, field: &str, value: &str) -> Option<()> {
    match field {
        "state" => row.state = state_of(value)?,
        "load" => row.load = u128::from(long(value)?),
        "load*2^76" => row.load = u128::from(short(value)?) << 76,
        "busy" => row.busy = short(value)?,
        _ => return change_terms(row, field, value),
    }
    Some(())
}

/// Changes a number of the opening itself. None where the words say nothing.
fn change_numbers(opening: &mut Opening, field: &str, value: &str) -> Option<()> {
    match field {
        "next" => opening.next = long(value)?,
        "at" => opening.at = long(value)?,
        "maintained" => opening.maintained = long(value)?,
        "chosen" => opening.chosen = given(value)?,
        _ => return None,
    }
    Some(())
}

/// A ticket and its member, as `TICKET:MEMBER`.
fn ticket_of(text: &str) -> Option<(u64, u32)> {
    let (ticket, member) = text.split_once(':')?;
    Some((long(ticket)?, short(member)?))
}

fn rename(row: &mut MemberRow, name: &str) -> Result<(), NoMemory> {
    row.name.clear();
    row.name.extend(name.as_bytes())
}

fn change_member(row: &mut MemberRow, field: &str, value: &str) -> Result<bool, NoMemory> {
    if field == "name" {
        rename(row, value)?;
        return Ok(true);
    }
    Ok(change_row(row, field, value).is_some())
}

/// Changes what the last member's row shows.
fn change_shown(opening: &mut Opening, field: &str, value: &str) -> Result<bool, NoMemory> {
    let Some(mut row) = opening.rows.pop() else {
        return Ok(false);
    };
    let changed = change_member(&mut row, field, value)?;
    opening.rows.push(row)?;
    Ok(changed)
}

/// A further ticket.
fn add_ticket(opening: &mut Opening, value: &str) -> Result<bool, NoMemory> {
    match ticket_of(value) {
        Some(ticket) => {
            opening.out.push(ticket)?;
            Ok(true)
        }
        None => Ok(false),
    }
}

/// Changes a value. False where the words say nothing.
fn change(opening: &mut Opening, field: &str, value: &str) -> Result<bool, NoMemory> {
    match field {
        "" => Ok(true),
        "fewer" => Ok(opening.rows.pop().is_some()),
        "lease" => add_ticket(opening, value),
        "next" | "at" | "maintained" | "chosen" => {
            Ok(change_numbers(opening, field, value).is_some())
        }
        _ => change_shown(opening, field, value),
    }
}

/// Changes the value that one or two words give. False where they say nothing.
fn change_by(opening: &mut Opening, words: &[&str]) -> Result<bool, NoMemory> {
    match words {
        [field, value] => change(opening, field, value),
        [field] => change(opening, field, ""),
        _ => Ok(false),
    }
}

/// Changes each value that the words give. False where they say nothing.
fn change_all(opening: &mut Opening, words: &[&str]) -> Result<bool, NoMemory> {
    for pair in words.chunks(2) {
        if !change_by(opening, pair)? {
            return Ok(false);
        }
    }
    Ok(true)
}

fn tell_changed(opening: &mut Opening, words: &[&str], out: &mut Bytes) -> Result<bool, NoMemory> {
    if !change_all(opening, words)? {
        return Ok(false);
    }
    say(
        out,
        if opening.is_valid() {
            "valid"
        } else {
            "refused"
        },
    )
}

fn tell_with(
    alloc: Global,
    opening: &mut Opening,
    words: &str,
    out: &mut Bytes,
) -> Result<bool, NoMemory> {
    tell_changed(opening, words_of(alloc, words)?.as_slice(), out)
}

/// Tells whether the opening of these lines is valid with values changed.
fn tell_judged(
    alloc: Global,
    lines: &[u8],
    words: &str,
    out: &mut Bytes,
) -> Result<bool, NoMemory> {
    match opening_of(alloc, lines)? {
        Some(mut opening) => tell_with(alloc, &mut opening, words, out),
        None => Ok(false),
    }
}

impl Teller for OpeningRow {
    fn tell(&mut self, alloc: Global, asked: &str, out: &mut Bytes) -> Result<bool, NoMemory> {
        if is_opening_line(asked) {
            put_line(&mut self.lines, asked)?;
            return say(out, asked);
        }
        match first_word(asked) {
            ("but", words) => tell_judged(alloc, self.lines.as_slice(), words, out),
            _ => Ok(false),
        }
    }
}

pub fn judge(alloc: Global, row: &str, shown: &mut String) -> Result<u64, NoMemory> {
    let lines = Bytes::new(alloc);
    judge_lines(alloc, &mut OpeningRow { lines }, row, shown)
}
