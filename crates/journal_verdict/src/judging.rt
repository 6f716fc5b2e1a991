//! An entry of a kept journal, judged by the Book that is where the entry stands.
ghost use Rattle.std.specs.Prelude.{◌≡◌, [], IfOk};
ghost use Rattle.lb_book.specs.Journal.{IsSound, past_of};
ghost use Rattle.lb_model.specs.Journal.{moment_of};
ghost use Rattle.lb_model.specs.Segments.{AreKeptEntries, IsKeptEntry};
ghost use Rattle.lb_model.specs.declared.journal.Call.{Call};
ghost use Rattle.journal_verdict.specs.Judging.{FollowsEntry, IsInTurn, JudgesEntries, RulesOn};

use crate::ruling::{Ruling, Wrong};
use jk_io::NoMemory;
use lb_book::{Book, Lease, Picked};
use lb_model::{AdminError, Ask, Call, Command, Entry, Outcome, RoomError};

// The journal names its tickets by number.
fn spend(lease: Option<Lease>) {
    if let Some(lease) = lease {
        let _ticket = lease.into_ticket();
    }
}

fn rule_select(book: &mut Book, entry: &Entry, ask: &Ask) -> Result<Ruling, NoMemory>
    requires call { entry.now.call ≡ Call.Select ask.now }
    requires turn { IsInTurn book.old entry.now }
    ensures { IfOk result (RulesOn entry.now book.old book.new) }
{
    match book.select(entry.session, entry.at, ask) {
        Ok(picked) => {
            let Picked { entry, lease } = picked;
            spend(lease);
            Ok(Ruling::Answer(entry.answer))
        }
        Err(RoomError::Full(_)) => Ok(Ruling::Full),
        Err(RoomError::NoMemory) => Err(NoMemory),
    }
}

fn rule_return(book: &mut Book, entry: &Entry, ticket: u64, outcome: Outcome) -> Ruling
    requires call { entry.now.call ≡ Call.Return ticket outcome }
    requires turn { IsInTurn book.old entry.now }
    ensures { RulesOn entry.now book.old book.new result }
{
    match book.return_ticket(entry.session, entry.at, ticket, outcome) {
        Ok(entry) => Ruling::Answer(entry.answer),
        Err(_) => Ruling::Stray,
    }
}

fn rule_maintain(book: &mut Book, entry: &Entry) -> Result<Ruling, NoMemory>
    requires call { entry.now.call ≡ Call.Maintain }
    requires turn { IsInTurn book.old entry.now }
    ensures { IfOk result (RulesOn entry.now book.old book.new) }
{
    match book.maintain_if_due(entry.session, entry.at) {
        Ok(Some(entry)) => Ok(Ruling::Answer(entry.answer)),
        Ok(None) => Ok(Ruling::NotDue),
        Err(RoomError::Full(_)) => Ok(Ruling::Full),
        Err(RoomError::NoMemory) => Err(NoMemory),
    }
}

fn rule_admin(book: &mut Book, entry: &Entry, command: &Command) -> Result<Ruling, NoMemory>
    requires call { entry.now.call ≡ Call.Admin command.now }
    requires turn { IsInTurn book.old entry.now }
    ensures { IfOk result (RulesOn entry.now book.old book.new) }
{
    match book.admin(entry.session, entry.at, command) {
        Ok(entry) => Ok(Ruling::Answer(entry.answer)),
        Err(AdminError::UnknownMember) => Ok(Ruling::Refused(1)),
        Err(AdminError::BadValue) => Ok(Ruling::Refused(2)),
        Err(AdminError::TooWide(_)) => Ok(Ruling::Refused(3)),
        Err(AdminError::Full(_)) => Ok(Ruling::Full),
        Err(AdminError::NoMemory) => Err(NoMemory),
    }
}

// What the Book answers to the entry's call.
fn rule(book: &mut Book, entry: &Entry) -> Result<Ruling, NoMemory>
    requires turn { IsInTurn book.old entry.now }
    ensures { IfOk result (RulesOn entry.now book.old book.new) }
{
    match &entry.call {
        Call::Select(ask) => rule_select(book, entry, ask),
        Call::Return { ticket, outcome } => Ok(rule_return(book, entry, *ticket, *outcome)),
        Call::Maintain => rule_maintain(book, entry),
        Call::Admin(command) => rule_admin(book, entry, command),
    }
}

/// What an entry has and what it ought to have; none where it follows from those before it, and then the Book went on by
/// it. `at` is the moment that the Book has reached.
pub fn judge(book: &mut Book, at: u64, entry: &Entry) -> Result<Option<(Ruling, Ruling)>, NoMemory>
    requires at { at ≡ moment_of book.old.opening (past_of book.old) }
    requires kept { IsKeptEntry book.old.rules entry.now }
    ensures { IfOk result (FollowsEntry entry.now book.old book.new) }
{
    let next = book.next();
    if entry.seq != next {
        return Ok(Some((Ruling::Seq(entry.seq), Ruling::Seq(next))));
    }
    if entry.at < at {
        return Ok(Some((Ruling::Moment(entry.at), Ruling::Moment(at))));
    }
    match rule(book, entry)? {
        Ruling::Answer(answer) if answer == entry.answer => Ok(None),
        ruled => Ok(Some((Ruling::Answer(entry.answer), ruled))),
    }
}

/// The first of the entries that doesn't follow from those before it. The Book goes on by those that do; `at` is the
/// moment that it has reached.
pub(crate) fn judge_entries(
    book: &mut Book,
    at: u64,
    entries: &[Entry],
) -> Result<Option<Wrong>, NoMemory>
    requires sound { IsSound book.old }
    requires empty { book.old.entries ≡ [] }
    requires at { at ≡ book.old.opening.at }
    requires kept { AreKeptEntries book.old.rules entries.now }
    ensures { IfOk result (JudgesEntries book.old book.new entries.now) }
{
    let mut at = at;
    for i in 0..entries.len() {
        if let Some((kept, ruled)) = judge(book, at, &entries[i])? {
            return Ok(Some(Wrong { at: i, kept, ruled }));
        }
        at = entries[i].at;
    }
    Ok(None)
}
