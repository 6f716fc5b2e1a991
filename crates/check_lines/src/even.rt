//! Callers that meet the premises of the law of weights: a Book that starts, and each call that keeps them.
ghost use Rattle.std.specs.Prelude.{◌≡◌, ◌≤◌, ◌<◌, ℕ, true, IfOk};
ghost use Rattle.lb_model.specs.Choice.{is_usable};
ghost use Rattle.lb_model.specs.Journal.{members};
ghost use Rattle.lb_model.specs.Legal.{KnowsTerms};
ghost use Rattle.lb_model.specs.Settings.{distance_of};
ghost use Rattle.lb_model.specs.States.{is_balanced};
ghost use Rattle.lb_model.specs.declared.member.Method.{Method};
ghost use Rattle.lb_book.specs.Journal.{past_of};
ghost use Rattle.lb_book.specs.Weights.{IsEvenEpoch};

use crate::calls::FitOutcome;
use jk_io::NoMemory;
use lb_book::{Book, Picked};
use lb_model::{Ask, Entry, FullMark, LbConfig, RoomError, Stray};
use std::alloc::Global;

/// A balancer by Request, whose loads are equal at its start.
pub fn start_evenly(alloc: Global, config: LbConfig, at: u64) -> Result<Book, NoMemory>
    requires { config.method ≡ Method.Request }
    ensures { IfOk result (λ book. IsEvenEpoch book.rules book.opening (past_of book)) }
{
    Book::start(alloc, config, at, 0)
}

/// Selects for an ask that every member could have.
pub fn select_evenly(book: &mut Book, at: u64, ask: &Ask) -> Result<Picked, RoomError<FullMark>>
    requires terms { KnowsTerms book.old.rules ask.now }
    requires even { IsEvenEpoch book.old.rules book.old.opening (past_of book.old) }
    requires usable { (m : ℕ) → m < members book.old.opening → is_usable book.old.rules book.old.opening (past_of book.old) ask.now m ≡ true }
    requires near { (i j : ℕ) → i < members book.old.opening → j < members book.old.opening
        → distance_of book.old.opening (past_of book.old) i ≡ distance_of book.old.opening (past_of book.old) j }
    ensures { IfOk result (λ picked. is_balanced picked.entry.answer ≡ true → IsEvenEpoch book.new.rules book.new.opening (past_of book.new)) }
{
    book.select(0, at, ask)
}

/// Returns a ticket, which changes no load.
pub fn return_evenly(book: &mut Book, at: u64, ticket: u64, fit: FitOutcome) -> Result<Entry, Stray>
    requires even { IsEvenEpoch book.old.rules book.old.opening (past_of book.old) }
    ensures { IsEvenEpoch book.new.rules book.new.opening (past_of book.new) }
{
    book.return_ticket(0, at, ticket, fit.outcome)
}
