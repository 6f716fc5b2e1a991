//! The row of two callers, and what is told of it.
ghost use Rattle.std.specs.Prelude.{IfOk};
ghost use Rattle.lb_passes.specs.Placed.{AreBack};
ghost use Rattle.pass_checks.specs.Pairs.{ArePair};

use crate::callers::{Met, meet_by_note};
use crate::pair::PassPair;
use crate::start::start_book;
use anyhow::Result as Judged;
use check_rows::comparing::wants;
use check_rows::files::{print_count, read_rows};
use check_rows::row::BlockRow;
use jk_io::{Bytes, NoMemory, put_decimal};
use lb_model::MemberRow;
use lb_passes::{PassBook, PassList, PassPlace, close_passes};
use std::alloc::Global;
use std::marker::Brand;
use std::rt::Files;
use std::sync::Wait;

/// The file of the row.
const FILE: &str = "pass/notes.txt";

/// Puts a text, and a number after it.
pub fn put_number(out: &mut Bytes, text: &[u8], number: u64) -> Result<(), NoMemory> {
    out.extend(text)?;
    put_decimal(out, u128::from(number))
}

/// Puts how many tickets of each member are out.
pub fn put_busy(out: &mut Bytes, rows: &[MemberRow]) -> Result<(), NoMemory> {
    out.extend(b"\nbusy")?;
    for row in rows {
        put_number(out, b" ", u64::from(row.busy))?;
    }
    out.push(b'\n')
}

/// Puts what the two callers were told.
fn put_met(met: &Met, out: &mut Bytes) -> Result<(), NoMemory> {
    put_number(out, b"first chose ", u64::from(met.first))?;
    put_number(out, b"\nsecond chose ", u64::from(met.second))?;
    put_number(out, b"\nthen next ", met.seen.next)?;
    put_busy(out, met.seen.rows.as_slice())
}

fn tell_met(met: Option<Met>, out: &mut Bytes) -> Result<(), NoMemory> {
    match met {
        Some(met) => put_met(&met, out),
        None => out.extend(b"refused\n"),
    }
}

/// Has the callers of the two passes of a list meet over their desks, and gives the passes back.
fn meet_in<P: PassPlace, R: Wait>(
    rt: &R,
    alloc: Global,
    book: &PassBook,
    passes: PassList,
    out: &mut Bytes,
) -> Result<PassList, NoMemory>
    requires pair { ArePair P.table P.origin P.given book.now passes }
    ensures { IfOk result (AreBack P.table P.origin P.given) }
{
    let mut back = Vec::with_capacity(alloc, 2)?;
    let PassPair { first, second } = PassPair::<P>::of_list(book, passes);
    let mut first = first.desk(alloc, rt)?;
    let mut second = second.desk(alloc, rt)?;
    tell_met(meet_by_note(&mut first, &mut second), out)?;
    back.push_reserved(first.into_pass());
    back.push_reserved(second.into_pass());
    Ok(PassList::from_vec(back))
}

/// Puts how many entries the Book has that two callers leave.
fn tell_kept<R: Wait>(rt: &R, alloc: Global, out: &mut Bytes) -> Result<(), NoMemory> {
    let start = start_book(alloc)?;
    let (book, passes) = PassBook::new(alloc, start, 2)?;
    let back = meet_in::<Brand, R>(rt, alloc, &book, passes, out)?;
    match close_passes(book, back) {
        Ok(book) => {
            put_number(out, b"kept ", book.kept())?;
            out.push(b'\n')
        }
        Err(_) => Err(NoMemory),
    }
}

/// Shows what is told of the row where it is otherwise than the row says.
fn judge_told<R: Print + AllocGlobal>(rt: &R, text: &str, told: &[u8]) -> Judged<()> {
    let row = text.split_once("\nrow ").map_or("", |cut| cut.1);
    if matches!(wants(rt.alloc(), BlockRow::new(row), told), Ok(true)) {
        return print_count(rt, "", 1, "rows", FILE);
    }
    print_count(rt, str::from_utf8(told).unwrap_or(""), 0, "rows", FILE)
}

/// Judges the row.
pub fn judge<R: Print + AllocGlobal + Files + Wait>(rt: &R) -> Judged<()> {
    let text = read_rows(rt, FILE)?;
    let mut told = Bytes::new(rt.alloc());
    tell_kept(rt, rt.alloc(), &mut told)?;
    judge_told(rt, text.as_str(), told.as_slice())
}
