//! One turn at the Book: a Maintain if due and a call, each entry with its receipt.
ghost use Rattle.std.specs.Prelude.{◌≡◌, ◌+◌, ◌<◌, ◌≤◌, [], vec_len, vec_capacity, IfOk, IfErr, OnOk};
ghost use Rattle.lb_model.specs.declared.journal.TheConstants.{MOST_BYTES};
ghost use Rattle.lb_passes.specs.Holds.{CommandsInTurn, Denies, Looks, RefusesInTurn, ReturnsInTurn, Selects};
ghost use Rattle.lb_passes.specs.PassDesks.{IsOwnCall, IsOwnTicket};
ghost use Rattle.lb_passes.specs.Passes.{KeepsSeat};

use crate::pass::Pass;
use crate::pass_book::PassBook;
use crate::turns::{end_turn, take_turn};
use jk_io::NoMemory;
use lb_book::desk::Occasion;
use lb_book::holds::{command_after, note, select_after};
use lb_book::{Picked, Receipt};
use lb_model::{AdminError, Ask, Command, FullMark, Outcome, RoomError, View};
use std::sync::Wait;

/// The slot of the Book.
const BOOK: usize = 0;

/// A ticket that comes back, with how its exchange ended.
#[derive(Clone, Copy)]
pub(crate) struct Returned {
    pub(crate) ticket: u64,
    pub(crate) outcome: Outcome,
    pub ghost bytes: { outcome.bytes ≤ MOST_BYTES },
}

/// A Maintain if due, and a Select.
pub(crate) fn select_in<R: Wait>(
    rt: &R,
    book: &PassBook,
    pass: &mut Pass,
    receipts: &mut Vec<Receipt>,
    on: Occasion,
    ask: &Ask,
) -> Result<Picked, RoomError<FullMark>>
    requires own { IsOwnCall book.now pass.old on.session }
    requires room { vec_len receipts.old + 2 ≤ vec_capacity receipts.old }
    ensures seat { KeepsSeat pass.old pass.new }
    ensures room { vec_capacity receipts.old ≤ vec_capacity receipts.new }
    ensures ok { IfOk result (Selects pass.old.seat.me.0 pass.new.seat.me.0 receipts.old.items receipts.new.items on ask.now) }
    ensures err { IfErr result (Denies pass.old.seat.me.0 pass.new.seat.me.0 receipts.old.items receipts.new.items on) }
{
    take_turn(rt, book, &mut pass.seat);
    let had = receipts.len();
    let done = select_after(
        pass.seat.slot_mut(&book.table.shared, BOOK),
        receipts,
        on,
        ask,
    );
    end_turn(book, &mut pass.seat, (receipts.len() - had) as u64);
    done
}

/// The Return of a ticket that the caller got and still has.
pub(crate) fn return_in<R: Wait>(
    rt: &R,
    book: &PassBook,
    pass: &mut Pass,
    receipts: &mut Vec<Receipt>,
    on: Occasion,
    back: Returned,
)
    requires own { IsOwnCall book.now pass.old on.session }
    requires room { vec_len receipts.old < vec_capacity receipts.old }
    requires out { IsOwnTicket back.ticket pass.old.seat.me.0 }
    ensures seat { KeepsSeat pass.old pass.new }
    ensures room { vec_capacity receipts.old ≤ vec_capacity receipts.new }
    ensures back { ReturnsInTurn pass.old.seat.me.0 pass.new.seat.me.0 receipts.old.items receipts.new.items on back.ticket back.outcome }
{
    take_turn(rt, book, &mut pass.seat);
    let returned = pass
        .seat
        .slot_mut(&book.table.shared, BOOK)
        .return_ticket(on.session, on.at, back.ticket, back.outcome);
    let Ok(entry) = returned else { unreachable!() };
    note(receipts, on, entry);
    end_turn(book, &mut pass.seat, 1);
}

/// A Maintain if due, and a command.
pub(crate) fn command_in<R: Wait>(
    rt: &R,
    book: &PassBook,
    pass: &mut Pass,
    receipts: &mut Vec<Receipt>,
    on: Occasion,
    command: &Command,
) -> Result<(), AdminError<FullMark>>
    requires own { IsOwnCall book.now pass.old on.session }
    requires room { vec_len receipts.old + 2 ≤ vec_capacity receipts.old }
    ensures seat { KeepsSeat pass.old pass.new }
    ensures room { vec_capacity receipts.old ≤ vec_capacity receipts.new }
    ensures ok { OnOk result (CommandsInTurn pass.old.seat.me.0 pass.new.seat.me.0 receipts.old.items receipts.new.items on command.now) }
    ensures err { IfErr result (RefusesInTurn pass.old.seat.me.0 pass.new.seat.me.0 receipts.old.items receipts.new.items on command.now) }
{
    take_turn(rt, book, &mut pass.seat);
    let had = receipts.len();
    let done = command_after(
        pass.seat.slot_mut(&book.table.shared, BOOK),
        receipts,
        on,
        command,
    );
    end_turn(book, &mut pass.seat, (receipts.len() - had) as u64);
    done
}

/// The view of the Book.
pub(crate) fn look_in<R: Wait>(rt: &R, book: &PassBook, pass: &mut Pass) -> Result<View, NoMemory>
    requires of { pass.old.seat.table_id ≡ book.now.table.shared.table_id }
    ensures seat { KeepsSeat pass.old pass.new }
    ensures looks { Looks pass.old.seat.me.0 pass.new.seat.me.0 result }
{
    take_turn(rt, book, &mut pass.seat);
    let view = pass.seat.slot_mut(&book.table.shared, BOOK).view();
    end_turn(book, &mut pass.seat, 0);
    view
}
