//! The outcome of a session, as words.
ghost use Rattle.std.specs.Prelude.{◌≡◌, ◌<◌, length};

use check_rows::telling::{part, put_bytes, put_plain, put_shown, put_word};
use jk_io::{Bytes, NoMemory, PatientLink, Talk};
use lb_book::{Desk, PlainDesk};
use lb_model::{Asked, MemberRow, MemberState, Served, View};
use std::fmt::Write;

/// Adds balancer and member of a talk, what was sent, and whether the link was kept.
fn put_talk(talk: &Talk, out: &mut String) -> Result<(), NoMemory> {
    part(out)?;
    write!(out, "to {}.{}", talk.lb, talk.member)?;
    put_bytes(out, talk.sent.as_slice())?;
    if talk.keep {
        put_word(out, "kept")?;
    }
    Ok(())
}

pub fn put_talks(talks: &[Talk], out: &mut String) -> Result<(), NoMemory> {
    for talk in talks {
        put_talk(talk, out)?;
    }
    Ok(())
}

fn put_line(method: &Bytes, target: &Bytes, old: bool, out: &mut String) -> Result<(), NoMemory> {
    part(out)?;
    put_plain(out, method.as_slice())?;
    out.push(' ')?;
    put_plain(out, target.as_slice())?;
    if old {
        put_word(out, "old")?;
    }
    Ok(())
}

fn put_asked(asked: &Asked, out: &mut String) -> Result<(), NoMemory> {
    match asked {
        Asked::Refused => put_word(out, "refused"),
        Asked::Line {
            method,
            target,
            old,
        } => put_line(method, target, *old, out),
    }
}

fn put_worker(worker: &Option<Bytes>, out: &mut String) -> Result<(), NoMemory> {
    let Some(name) = worker else {
        return put_word(out, "-");
    };
    part(out)?;
    put_plain(out, name.as_slice())
}

/// Adds a row as a log has it: what was asked, status, body and worker.
fn put_row(row: &Served, out: &mut String) -> Result<(), NoMemory> {
    put_word(out, "row")?;
    put_asked(&row.asked, out)?;
    write!(out, " {} {}", row.status, row.body)?;
    put_worker(&row.worker, out)
}

pub fn put_rows(rows: &[Served], out: &mut String) -> Result<(), NoMemory> {
    for row in rows {
        put_row(row, out)?;
    }
    Ok(())
}

fn state_word(state: MemberState) -> &'static str {
    match state {
        MemberState::Ok => "ok",
        MemberState::Error { .. } => "error",
        MemberState::Recover => "recover",
        MemberState::Probe { .. } => "probe",
    }
}

fn put_member(row: &MemberRow, out: &mut String) -> Result<(), NoMemory> {
    part(out)?;
    put_plain(out, row.name.as_slice())?;
    put_word(out, state_word(row.state))?;
    if row.busy > 0 {
        put_word(out, "busy")?;
    }
    Ok(())
}

/// Adds the next number of a balancer, and each member with its state.
fn put_view(view: &View, out: &mut String) -> Result<(), NoMemory> {
    part(out)?;
    write!(out, "next {}", view.next)?;
    for row in view.rows.as_slice() {
        put_member(row, out)?;
    }
    Ok(())
}

/// Adds what is to be seen of a balancer.
pub fn put_balancer(desk: &mut PlainDesk, lb: u32, out: &mut String) -> Result<(), NoMemory>
    requires { lb < length desk.old.sizes }
    ensures { desk.new ≡ desk.old }
{
    let view = desk.look(lb)?;
    put_view(&view, out)
}

/// Adds what a link was told to await.
pub fn put_awaited(whose: &str, link: &PatientLink, out: &mut String) -> Result<(), NoMemory> {
    put_word(out, whose)?;
    for what in link.awaited() {
        put_shown(out, what)?;
    }
    Ok(())
}
