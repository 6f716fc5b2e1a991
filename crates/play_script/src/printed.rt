//! The lines that a script prints.
ghost use Rattle.std.specs.Prelude.{◌≡◌, ◌++◌, OnOk, decimal};
ghost use Rattle.play_script.specs.Printed.{name_at, how_words, probe_words, answer_line, state_word, row_line, row_lines, refusal_words, refusal_line};

use crate::names::NameList;
use jk_io::{Bytes, NoMemory, put_decimal};
use lb_model::{Answer, How, MemberRow, MemberState};

/// Why a script ends before its last line.
#[derive(Clone, Copy)]
pub enum ScriptRefusal {
    /// The line is of no form, or not in its place.
    BadLine,
    /// The ticket of a Return isn't out.
    NotOpen(u64),
    /// The Book refused a command, for this reason.
    Refused(u8),
    /// The members and rules make no balancer.
    BadBalancer,
}

fn name_at(names: &NameList, member: u32) -> &[u8]
    ensures { result.now ≡ name_at names.now member }
{
    match names.get(member as usize) {
        Some(name) => name.as_slice(),
        None => b"",
    }
}

fn how_words(how: How) -> &'static [u8]
    ensures { result.now ≡ how_words how }
{
    match how {
        How::Sticky => b" sticky",
        How::Redirect => b" redirect",
        How::Balanced => b"",
    }
}

fn probe_words(probe: bool) -> &'static [u8]
    ensures { result.now ≡ probe_words probe }
{
    if probe { b" probe" } else { b"" }
}

/// Adds the line of a select's answer.
pub fn put_answer(out: &mut Bytes, names: &NameList, answer: &Answer) -> Result<(), NoMemory>
    ensures { OnOk result (out.new ≡ out.old ++ answer_line names.now answer.now) }
{
    match *answer {
        Answer::Chosen {
            member,
            ticket,
            how,
            probe,
        } => {
            put_decimal(out, u128::from(ticket))?;
            out.extend(b" ")?;
            out.extend(name_at(names, member))?;
            out.extend(how_words(how))?;
            out.extend(probe_words(probe))?;
            out.extend(b"\n")
        }
        Answer::NoMember => out.extend(b"none\n"),
        Answer::Forced => out.extend(b"forced\n"),
        Answer::Done => Ok(()),
    }
}

fn state_word(state: MemberState) -> &'static [u8]
    ensures { result.now ≡ state_word state }
{
    match state {
        MemberState::Ok => b"ok",
        MemberState::Error { at: _ } => b"error",
        MemberState::Recover => b"recover",
        MemberState::Probe { ticket: _ } => b"probe",
    }
}

fn put_row(out: &mut Bytes, row: &MemberRow) -> Result<(), NoMemory>
    ensures { OnOk result (out.new ≡ out.old ++ row_line row.now) }
{
    out.extend(row.name.as_slice())?;
    out.extend(b" ")?;
    out.extend(state_word(row.state))?;
    out.extend(b" ")?;
    put_decimal(out, row.load)?;
    out.extend(b" ")?;
    put_decimal(out, u128::from(row.busy))?;
    out.extend(b"\n")
}

/// Adds a line for each member.
pub fn put_rows(out: &mut Bytes, rows: &[MemberRow]) -> Result<(), NoMemory>
    ensures { OnOk result (out.new ≡ out.old ++ row_lines rows.now) }
{
    for row in rows {
        put_row(out, row)?;
    }
    Ok(())
}

fn put_number(out: &mut Bytes, before: &[u8], number: u64, after: &[u8]) -> Result<(), NoMemory>
    ensures { OnOk result (out.new ≡ out.old ++ before.now ++ decimal number ++ after.now) }
{
    out.extend(before)?;
    put_decimal(out, u128::from(number))?;
    out.extend(after)?;
    Ok(())
}

fn put_refusal_words(out: &mut Bytes, refusal: ScriptRefusal) -> Result<(), NoMemory>
    ensures { OnOk result (out.new ≡ out.old ++ refusal_words refusal) }
{
    match refusal {
        ScriptRefusal::BadLine => out.extend(b"bad line\n"),
        ScriptRefusal::NotOpen(ticket) => put_number(out, b"ticket ", ticket, b" is not open\n"),
        ScriptRefusal::Refused(code) => put_number(out, b"refused ", u64::from(code), b"\n"),
        ScriptRefusal::BadBalancer => out.extend(b"bad balancer\n"),
    }
}

/// Adds the last line of a script that is refused at this line, counted from 1.
pub fn put_refusal(out: &mut Bytes, number: u64, refusal: ScriptRefusal) -> Result<(), NoMemory>
    ensures { OnOk result (out.new ≡ out.old ++ refusal_line number refusal) }
{
    put_number(out, b"line ", number, b": ")?;
    put_refusal_words(out, refusal)
}
