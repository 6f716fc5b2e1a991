//! The opening that goes on where a journal ends.

ghost use Rattle.std.specs.Prelude.{◌≡◌, ℕ, ◌+◌, ◌<◌, ◌≤◌, ◌^◌, ◌++◌, List, length, reverse, IfOk, OnOk, slice_index_or};
ghost use Rattle.lb_model.specs.declared.journal.Entry.{Entry};
ghost use Rattle.lb_model.specs.Journal.{each};
ghost use Rattle.lb_model.specs.Legal.{IsLegal};
ghost use Rattle.lb_model.specs.Multiple.{multiple_of};
ghost use Rattle.lb_model.specs.Present.{IsEnding};
ghost use Rattle.lb_model.specs.Tickets.{out, ticket_in};
ghost use Rattle.lb_book.specs.Ending.{AreEarly, AreEndingInRange, AreOwn, AreSettled, IsSettled, ending_member, still_out, tickets_made, unreturned};
ghost use Rattle.lb_book.specs.Kept.{IsNow};
ghost use Rattle.lb_rules.specs.declared.standing.Standing.{Standing};
ghost use Rattle.lb_rules.specs.Returns.{AreReturns};
ghost use Rattle.lb_model.specs.declared.validity.TheConstants.{MOST_NUMBERS};

use crate::present::Present;
use crate::shown::shown_rows;
use jk_io::NoMemory;
use lb_model::{Answer, Entry, LbConfig, MemberConfig, MemberList, Opening, RowList, TicketList};
use lb_rules::{Standing, next_after};
use std::alloc::Global;

// The member's configuration with the setting of its row.
fn ending_member(member: &MemberConfig, row: &Standing) -> Result<MemberConfig, NoMemory>
    ensures { IfOk result (λ c. c ≡ ending_member member.now row.now) }
{
    Ok(MemberConfig {
        name: member.name.copy()?,
        route: member.route.copy()?,
        factor: row.factor,
        distance: row.distance,
        activation: row.activation,
        redirect: row.redirect,
        pool: member.pool,
    })
}

fn ending_members(
    alloc: Global,
    members: &[MemberConfig],
    rows: &[Standing],
) -> Result<Vec<MemberConfig>, NoMemory>
    requires { length rows.now ≡ length members.now }
    ensures { IfOk result (λ settled. AreSettled members.now rows.now (length members.now) settled.items) }
{
    let mut settled = Vec::with_capacity(alloc, rows.len())?;
    for i in 0..rows.len() {
        settled.push(ending_member(&members[i], &rows[i])?)?;
    }
    Ok(settled)
}

// The configuration with the settings of the rows.
fn ending_config(config: &LbConfig, rows: &[Standing]) -> Result<LbConfig, NoMemory>
    requires whole { length rows.now ≡ length config.now.members }
    requires ranges { AreEndingInRange config.now.members rows.now }
    requires narrow { (d : Standing) → multiple_of (each (length rows.now) (λ m. (slice_index_or rows.now m d).factor)) < 2 ^ 32 }
    ensures { IfOk result (IsSettled config.now rows.now) }
{
    let members = ending_members(config.members.allocator(), config.members.as_slice(), rows)?;
    Ok(LbConfig {
        method: config.method,
        sticky: config.sticky,
        force: config.force,
        direct: config.direct,
        maintain: config.maintain,
        recover: config.recover,
        members: MemberList::from_vec(members),
    })
}

// Adds a ticket at the end, if there is one and it didn't come back.
fn put_if_out(
    tickets: &mut Vec<(u64, u32)>,
    ticket: Option<(u64, u32)>,
    returned: Option<u64>,
) -> Result<(), NoMemory>
    ensures { OnOk result (tickets.new.items ≡ tickets.old.items ++ still_out returned ticket) }
{
    match (returned, ticket) {
        (None, Some(ticket)) => Ok(tickets.push(ticket)?),
        _ => Ok(()),
    }
}

fn ticket_of(entry: &Entry) -> Option<(u64, u32)>
    ensures { result ≡ ticket_in entry.now.seq entry.now.answer }
{
    match entry.answer {
        Answer::Chosen { member, .. } => Some((entry.seq, member)),
        Answer::NoMember | Answer::Forced | Answer::Done => None,
    }
}

// Those of the opening's tickets that didn't come back.
fn early_out(
    alloc: Global,
    out: &[(u64, u32)],
    early: &[Option<u64>],
) -> Result<Vec<(u64, u32)>, NoMemory>
    requires { length early.now ≡ length out.now }
    ensures { (p : List Entry) → AreEarly p out.now early.now → IfOk result (λ tickets. tickets.items ≡ unreturned p out.now) }
{
    let mut tickets = Vec::new(alloc);
    for i in 0..out.len() {
        put_if_out(&mut tickets, Some(out[i]), early[i])?;
    }
    Ok(tickets)
}

// Adds at the end those of the entries' tickets that didn't come back.
fn put_own(
    tickets: &mut Vec<(u64, u32)>,
    entries: &[Entry],
    kept: &[Option<u64>],
) -> Result<(), NoMemory>
    requires { length kept.now ≡ length entries.now }
    ensures { (p : List Entry) → AreOwn p entries.now kept.now
        → OnOk result (tickets.new.items ≡ tickets.old.items ++ unreturned p (tickets_made entries.now)) }
{
    for k in 0..entries.len() {
        put_if_out(tickets, ticket_of(&entries[k]), kept[k])?;
    }
    Ok(())
}

// The tickets that are out, the oldest first.
fn tickets_out(
    opening: &Opening,
    entries: &[Entry],
    kept: &[Option<u64>],
    early: &[Option<u64>],
) -> Result<Vec<(u64, u32)>, NoMemory>
    requires { AreReturns opening.now (reverse entries.now) kept.now early.now }
    ensures { (v : ℕ) → IsLegal v opening.now entries.now → IfOk result (λ tickets. tickets.items ≡ reverse (out opening.now (reverse entries.now))) }
{
    let mut tickets = early_out(opening.out.allocator(), opening.out.as_slice(), early)?;
    put_own(&mut tickets, entries, kept)?;
    Ok(tickets)
}

/// The opening that goes on where the entries end, which left `present`.
pub(crate) fn ending(
    opening: &Opening,
    entries: &[Entry],
    present: &Present,
    kept: &[Option<u64>],
    early: &[Option<u64>],
) -> Result<Opening, NoMemory>
    requires returns { AreReturns opening.now (reverse entries.now) kept.now early.now }
    requires whole { length present.now.rows.items ≡ length opening.now.config.members }
    requires ranges { AreEndingInRange opening.now.config.members present.now.rows.items }
    requires narrow { (d : Standing) → multiple_of (each (length present.now.rows.items) (λ m. (slice_index_or present.now.rows.items m d).factor)) < 2 ^ 32 }
    requires room { opening.now.next + length entries.now ≤ MOST_NUMBERS }
    ensures { (v : ℕ) → IsLegal v opening.now entries.now → IsNow v opening.now (reverse entries.now) present.now
        → IfOk result (IsEnding v opening.now (reverse entries.now)) }
{
    let out = tickets_out(opening, entries, kept, early)?;
    let rows = present.rows.as_slice();
    let members = opening.config.members.as_slice();
    let shown = shown_rows(opening.config.members.allocator(), members, rows)?;
    Ok(Opening {
        config: ending_config(&opening.config, rows)?,
        rows: RowList::from_vec(shown),
        out: TicketList::from_vec(out),
        next: next_after(opening, entries),
        at: present.at,
        maintained: present.maintained,
        chosen: present.chosen,
    })
}
