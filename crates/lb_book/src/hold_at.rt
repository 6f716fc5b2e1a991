//! One hold of the Book at a place, over the lists that a desk of one thread keeps.
ghost use Rattle.std.specs.Prelude.{◌≡◌, ◌≤◌, ◌<◌, ℕ, true, not, filter, length, slice_index, vec_len, vec_capacity, IfOk, IfErr, OnOk, OnErr};
ghost use Rattle.lb_book.specs.Desks.{holds, is_pair, without_last};
ghost use Rattle.lb_book.specs.PlainDesks.{IsPlain};
ghost use Rattle.lb_book.specs.PlainLists.{ListsChoose, ListsCommand, ListsDeny, ListsRefuse, ListsTakeBack, lists};
ghost use Rattle.lb_book.specs.ToldBooks.{sizes_of};
ghost use Rattle.lb_model.specs.declared.journal.TheConstants.{MOST_BYTES};

use crate::book::Book;
use crate::desk::{Choice, Occasion};
use crate::holds::{command_after, note, select_after};
use crate::plain_desk::{PlainLease, chosen};
use crate::receipt::Receipt;
use lb_model::{AdminError, Ask, Command, FullMark, Outcome, RoomError};

/// A Maintain if due, and a Select. The room is taken before: for both receipts, for that of the ticket's
/// Return, and for the ticket.
pub(crate) fn select_at(
    books: &mut [Book],
    receipts: &mut Vec<Receipt>,
    held: &mut Vec<(u32, u64)>,
    on: Occasion,
    ask: &Ask,
) -> Result<Choice<PlainLease>, RoomError<FullMark>>
    requires plain { IsPlain books.old receipts.old.items held.old.items (vec_capacity receipts.old) }
    requires known { on.lb < length books.old }
    ensures plain { IsPlain books.new receipts.new.items held.new.items (vec_capacity receipts.new) }
    ensures ok { IfOk result (ListsChoose (lists books.old receipts.old.items held.old.items)
        (lists books.new receipts.new.items held.new.items) on ask.now) }
    ensures err { IfErr result (ListsDeny (lists books.old receipts.old.items held.old.items)
        (lists books.new receipts.new.items held.new.items) on) }
    ensures held { OnErr result (held.new.items ≡ held.old.items) }
    ensures sizes { sizes_of books.new ≡ sizes_of books.old }
    ensures len { length books.new ≡ length books.old }
{
    receipts.reserve(held.len() + 3)?;
    held.reserve(1)?;
    let picked = select_after(&mut books[on.lb as usize], receipts, on, ask)?;
    Ok(chosen(held, on.lb, picked))
}

/// A Return of a ticket that is held.
pub(crate) fn return_at(
    books: &mut [Book],
    receipts: &mut Vec<Receipt>,
    held: &mut Vec<(u32, u64)>,
    on: Occasion,
    ticket: u64,
    outcome: Outcome,
)
    requires plain { IsPlain books.old receipts.old.items held.old.items (vec_capacity receipts.old) }
    requires known { on.lb < length books.old }
    requires held { holds held.old.items (on.lb, ticket) ≡ true }
    requires bytes { outcome.bytes ≤ MOST_BYTES }
    ensures plain { IsPlain books.new receipts.new.items held.new.items (vec_capacity receipts.new) }
    ensures back { ListsTakeBack (lists books.old receipts.old.items held.old.items)
        (lists books.new receipts.new.items held.new.items) on ticket outcome }
    ensures held { held.new.items ≡ without_last held.old.items (on.lb, ticket) }
    ensures sizes { sizes_of books.new ≡ sizes_of books.old }
    ensures len { length books.new ≡ length books.old }
{
    let returned = books[on.lb as usize].return_ticket(on.session, on.at, ticket, outcome);
    let Ok(entry) = returned else { unreachable!() };
    note(receipts, on, entry);
    take_out(held, (on.lb, ticket));
}

/// A Maintain if due, and a command.
pub(crate) fn command_at(
    books: &mut [Book],
    receipts: &mut Vec<Receipt>,
    held: &[(u32, u64)],
    on: Occasion,
    command: &Command,
) -> Result<(), AdminError<FullMark>>
    requires plain { IsPlain books.old receipts.old.items held.now (vec_capacity receipts.old) }
    requires known { on.lb < length books.old }
    ensures plain { IsPlain books.new receipts.new.items held.now (vec_capacity receipts.new) }
    ensures ok { OnOk result (ListsCommand (lists books.old receipts.old.items held.now)
        (lists books.new receipts.new.items held.now) on command.now) }
    ensures err { IfErr result (ListsRefuse (lists books.old receipts.old.items held.now)
        (lists books.new receipts.new.items held.now) on command.now) }
    ensures sizes { sizes_of books.new ≡ sizes_of books.old }
    ensures len { length books.new ≡ length books.old }
{
    receipts.reserve(held.len() + 2)?;
    command_after(&mut books[on.lb as usize], receipts, on, command)
}

// Whether two pairs are the same.
fn is_pair(a: (u32, u64), b: (u32, u64)) -> bool
    ensures { result ≡ is_pair a b }
{
    a.0 == b.0 && a.1 == b.1
}

/// Takes out every pair equal to this one.
pub fn take_out(held: &mut Vec<(u32, u64)>, pair: (u32, u64))
    ensures { held.new.items ≡ filter (λ x. not (is_pair pair x)) held.old.items }
{
    held.retain(|one| !is_pair(pair, *one));
}
