//! Callers that meet the premises of each law of the balancer's definitions, over every Book of rules 2.
//!
//! Each takes the segment of a Book before a call, does the call, and cites the laws of what it saw. That they are
//! proved shows that some history meets each law's premises.
ghost use Rattle.std.specs.Prelude.{◌≡◌, ◌≤◌, ◌<◌, ◌∷◌, reverse, IfOk};
ghost use Rattle.lb_model.specs.Choice.{IsPick};
ghost use Rattle.lb_model.specs.Legal.{IsLegalPast};
ghost use Rattle.lb_model.specs.declared.journal.Call.{Call};

use crate::begin::ModernBook;
use crate::calls::FitOutcome;
use jk_io::NoMemory;
use lb_book::{Book, Picked};
use lb_model::laws::{
    choice_is_good, epoch_adds_up, history_is_bounded, maintenance_halves, state_is_the_last_touch,
    ticket_begins, ticket_ends,
};
use lb_model::{AdminError, Ask, Command, Entry, FullMark, Method, RoomError, Segment, Stray};

/// Selects. A choice is a good one, and begins its ticket.
pub fn select_lawfully(
    modern: &mut ModernBook,
    at: u64,
    ask: &Ask,
) -> Result<Picked, RoomError<FullMark>> {
    let before = modern.book.segment()?;
    let picked = modern.book.select(0, at, ask)?;
    cite_choice(&before, ask, &picked.entry);
    Ok(picked)
}

fn cite_choice(before: &Segment, ask: &Ask, entry: &Entry)
    requires pick { IsPick before.now.rules before.now.opening (reverse before.now.entries) ask.now entry.now.answer }
    requires legal { IsLegalPast before.now.rules before.now.opening (entry.now ∷ reverse before.now.entries) }
{
    let past = before.entries.as_slice();
    let (rules, opening) = (before.rules, &before.opening);
    choice_is_good(rules, opening, past, ask, entry.answer);
    ticket_begins(rules, opening, past, entry);
}

/// Returns a ticket, which then is out no longer.
pub fn return_lawfully(
    modern: &mut ModernBook,
    at: u64,
    ticket: u64,
    fit: FitOutcome,
) -> Result<Result<Entry, Stray>, NoMemory> {
    let before = modern.book.segment()?;
    let answer = modern.book.return_ticket(0, at, ticket, fit.outcome);
    if let Ok(entry) = &answer {
        ticket_ends(
            &before.opening,
            before.entries.as_slice(),
            entry,
            &[],
            ticket,
        );
    }
    Ok(answer)
}

/// Does a Maintain if due: it halves the loads, except by Busyness.
pub fn maintain_lawfully(
    modern: &mut ModernBook,
    at: u64,
) -> Result<Option<Entry>, RoomError<FullMark>> {
    let before = modern.book.segment()?;
    let done = modern.book.maintain_if_due(0, at)?;
    if let Some(entry) = &done {
        cite_maintenance(&before, entry);
    }
    Ok(done)
}

fn cite_maintenance(before: &Segment, entry: &Entry)
    requires { entry.now.call ≡ Call.Maintain }
{
    if before.opening.config.method != Method::Busyness {
        let past = before.entries.as_slice();
        maintenance_halves(before.rules, &before.opening, past, entry);
    }
}

/// Resets a member. Its state is then what this entry gives, the last one that touches it.
pub fn reset_lawfully(
    modern: &mut ModernBook,
    at: u64,
    member: u32,
) -> Result<Entry, AdminError<FullMark>> {
    let before = modern.book.segment()?;
    let entry = modern.book.admin(0, at, &Command::Reset { member })?;
    let past = before.entries.as_slice();
    state_is_the_last_touch(before.rules, &before.opening, past, &entry, &[], member);
    Ok(entry)
}

/// The bounds and the sums of a Book's history, for each member.
pub fn cite_bounds(book: &Book) -> Result<(), NoMemory> {
    let kept = book.segment()?;
    let past = kept.entries.as_slice();
    for member in 0..kept.opening.config.members.len() {
        history_is_bounded(kept.rules, &kept.opening, past, member as u32);
        epoch_adds_up(kept.rules, &kept.opening, past, member as u32);
    }
    Ok(())
}
