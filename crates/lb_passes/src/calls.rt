//! The calls of a desk on one balancer, with the receipts and the tickets that the desk keeps.
ghost use Rattle.std.specs.Prelude.{◌≡◌, true, not, filter, IfOk, IfErr, OnOk};
ghost use Rattle.lb_book.specs.Desks.{holds, is_pair};
ghost use Rattle.lb_passes.specs.Calls.{CallChooses, CallCommands, CallDenies, CallRefuses};
ghost use Rattle.lb_passes.specs.Holds.{ReturnsInTurn};
ghost use Rattle.lb_passes.specs.PassDesks.{IsOwnCall, IsOwnTicket};
ghost use Rattle.lb_passes.specs.Passes.{KeepsSeat};

use crate::desk_lists::DeskLists;
use crate::holds::{Returned, command_in, return_in, select_in};
use crate::pass::Pass;
use crate::pass_book::PassBook;
use lb_book::desk::{Choice, Occasion};
use lb_book::{PlainLease, chosen, take_out};
use lb_model::{AdminError, Ask, Command, FullMark, RoomError};
use std::sync::Wait;

/// Asks for a member. The room for the receipts is taken before the turn.
pub(crate) fn choose_at<R: Wait>(
    rt: &R,
    book: &PassBook,
    pass: &mut Pass,
    lists: &mut DeskLists,
    on: Occasion,
    ask: &Ask,
) -> Result<Choice<PlainLease>, RoomError<FullMark>>
    requires { IsOwnCall book.now pass.old on.session }
    ensures seat { KeepsSeat pass.old pass.new }
    ensures ok { IfOk result (CallChooses pass.old.seat.me.0 pass.new.seat.me.0 lists.old lists.new on ask.now) }
    ensures err { IfErr result (CallDenies pass.old.seat.me.0 pass.new.seat.me.0 lists.old lists.new on) }
{
    lists.receipts.reserve(lists.held.len() + 3)?;
    lists.held.reserve(1)?;
    let picked = select_in(rt, book, pass, &mut lists.receipts, on, ask)?;
    Ok(chosen(&mut lists.held, on.lb, picked))
}

/// Takes a ticket back that the caller got and still has.
pub(crate) fn return_at<R: Wait>(
    rt: &R,
    book: &PassBook,
    pass: &mut Pass,
    lists: &mut DeskLists,
    on: Occasion,
    back: Returned,
)
    requires own { IsOwnCall book.now pass.old on.session }
    requires out { IsOwnTicket back.ticket pass.old.seat.me.0 }
    requires held { holds lists.old.held.items (on.lb, back.ticket) ≡ true }
    ensures seat { KeepsSeat pass.old pass.new }
    ensures back { ReturnsInTurn pass.old.seat.me.0 pass.new.seat.me.0 lists.old.receipts.items lists.new.receipts.items on back.ticket back.outcome }
    ensures held { lists.new.held.items ≡ filter (λ x. not (is_pair (on.lb, back.ticket) x)) lists.old.held.items }
{
    return_in(rt, book, pass, &mut lists.receipts, on, back);
    take_out(&mut lists.held, (on.lb, back.ticket));
}

/// Does a command. The room for the receipts is taken before the turn.
pub(crate) fn command_at<R: Wait>(
    rt: &R,
    book: &PassBook,
    pass: &mut Pass,
    lists: &mut DeskLists,
    on: Occasion,
    command: &Command,
) -> Result<(), AdminError<FullMark>>
    requires { IsOwnCall book.now pass.old on.session }
    ensures seat { KeepsSeat pass.old pass.new }
    ensures ok { OnOk result (CallCommands pass.old.seat.me.0 pass.new.seat.me.0 lists.old lists.new on command.now) }
    ensures err { IfErr result (CallRefuses pass.old.seat.me.0 pass.new.seat.me.0 lists.old lists.new on command.now) }
{
    lists.receipts.reserve(lists.held.len() + 2)?;
    command_in(rt, book, pass, &mut lists.receipts, on, command)
}
