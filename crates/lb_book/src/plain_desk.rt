//! A desk of one thread that has its Books to itself.
ghost use Rattle.std.specs.Prelude.{◌≡◌, ◌≢◌, ◌≤◌, ◌<◌, ◌++◌, [], length, vec_len, vec_capacity};
ghost use Rattle.lb_model.specs.declared.journal.Answer.{Answer};
ghost use Rattle.lb_book.specs.Leases.{IsLeaseOf};
ghost use Rattle.lb_book.specs.PlainDesks.{AreLegal, AreModern, CountsFull, CountsRefusal, plain_state};
ghost use Rattle.lb_book.specs.PlainLeases.{IsChosenFor, pairs_in};

use crate::book::{Book, Lease, Picked};
use crate::desk::{Choice, Desk, Occasion};
use crate::hold_at::{command_at, return_at, select_at};
use crate::receipt::Receipt;
use jk_io::{ListOf, NoMemory};
use lb_model::{AdminError, Answer, Ask, Command, FullMark, Outcome, RoomError, Stray, View};
use std::alloc::Global;
use std::marker::Model;

/// Books in order.
pub type BookList = ListOf<Book>;

/// A ticket that a desk of Books holds. Its `hand_back` spends it.
pub struct PlainLease {
    lb: u32,
    lease: Lease,
}

/// A desk over Books of rules 2 that nobody else asks. It tells them, and a ticket that it holds is never a stray.
#[derive(Drop)]
pub struct PlainDesk {
    books: Vec<Book>,
    receipts: Vec<Receipt>,
    /// Balancer and ticket of each lease that is out, in the order of the choices.
    held: Vec<(u32, u64)>,
    fulls: u64,
    wides: u64,
}

impl Model for PlainDesk {
    ghost use Rattle.std.specs.Prelude.{vec_capacity};
    ghost use Rattle.lb_book.specs.Desks.{DeskState};
    ghost use Rattle.lb_book.specs.PlainDesks.{IsPlain, plain_state};

    ghost Value = { DeskState };

    ghost view = { λ d. plain_state d.books.items d.receipts.items d.held.items 0 d.fulls d.wides };

    ghost invariant = { λ d. IsPlain d.books.items d.receipts.items d.held.items (vec_capacity d.receipts) };
}

impl PlainDesk {
    /// A desk that holds no ticket and has no receipt. It takes no memory.
    pub fn new(alloc: Global, books: BookList) -> PlainDesk
        requires modern { AreModern books }
        ensures { result ≡ plain_state books [] [] 0 0 0 }
    {
        let books = books.into_vec();
        vouch(books.as_slice());
        PlainDesk {
            books,
            receipts: Vec::new(alloc),
            held: Vec::new(alloc),
            fulls: 0,
            wides: 0,
        }
    }
}

impl PlainLease {
    ghost use Rattle.std.specs.Prelude.{◌≡◌};

    /// Spends the lease, and gives its balancer and its ticket.
    pub fn into_pair(self) -> (u32, u64)
        ensures { (result.0 ≡ self.lb) × (result.1 ≡ self.lease.ticket) }
    {
        let PlainLease { lb, lease } = self;
        (lb, lease.into_ticket())
    }
}

impl Desk for PlainDesk {
    ghost use Rattle.std.specs.Prelude.{◌≡◌, ◌<◌, ◌≤◌, true, length, Some, IfSome, IfOk, IfErr, IsOk};
    ghost use Rattle.lb_book.specs.Desks.{
      Chooses,
      Commands,
      KeepsDesk,
      LeaseNote,
      MeetsNone,
      MeetsStray,
      RefusesChoice,
      RefusesCommand,
      TakesBack,
      holds,
      pair_of,
      without_last,
    };
    ghost use Rattle.lb_book.specs.PlainLeases.{note_of};
    ghost use Rattle.lb_model.specs.declared.journal.TheConstants.{MOST_BYTES};

    type Lease = PlainLease;

    type Mark = FullMark;

    type Shown = View;

    ghost state = { λ d. d };

    ghost note = { note_of };

    ghost numbers = { λ mark. mark };

    ghost view = { λ view. view };

    fn choose(
        &mut self,
        lb: u32,
        session: u32,
        at: u64,
        ask: &Ask,
    ) -> Result<Choice<PlainLease>, RoomError<FullMark>>
        requires known { lb < length self.old.sizes }
        requires caller { IfSome self.old.caller (λ n. session ≡ n) }
        ensures ok { IfOk result (λ c. Chooses note_of self.old self.new lb session at ask.now c) }
        ensures err { IfErr result (λ e. RefusesChoice (λ mark. mark) self.old self.new lb session at e) }
        ensures kept { KeepsDesk self.old self.new }
    {
        let done = select_at(
            self.books.as_mut_slice(),
            &mut self.receipts,
            &mut self.held,
            Occasion { lb, session, at },
            ask,
        );
        count_full(&mut self.fulls, &done);
        done
    }

    fn hand_back(
        &mut self,
        session: u32,
        at: u64,
        lease: PlainLease,
        outcome: Outcome,
    ) -> Result<(), Stray>
        requires caller { IfSome self.old.caller (λ n. session ≡ n) }
        requires held { holds self.old.held (pair_of (note_of lease)) ≡ true }
        requires bytes { outcome.bytes ≤ MOST_BYTES }

        // A ticket that is held is never a stray.
        ensures back { IsOk result }
        ensures ok { IfOk result (λ _. TakesBack self.old self.new session at (note_of lease) outcome) }
        ensures err { IfErr result (λ stray. MeetsStray self.old self.new (note_of lease) stray) }
        ensures held { self.new.held ≡ without_last self.old.held (pair_of (note_of lease)) }
        ensures same { (self.new.fulls ≡ self.old.fulls) × (self.new.wides ≡ self.old.wides) }
        ensures kept { KeepsDesk self.old self.new }
    {
        let PlainLease { lb, lease } = lease;
        return_at(
            self.books.as_mut_slice(),
            &mut self.receipts,
            &mut self.held,
            Occasion { lb, session, at },
            lease.into_ticket(),
            outcome,
        );
        Ok(())
    }

    fn command(
        &mut self,
        lb: u32,
        session: u32,
        at: u64,
        command: &Command,
    ) -> Result<(), AdminError<FullMark>>
        requires known { lb < length self.old.sizes }
        requires caller { IfSome self.old.caller (λ n. session ≡ n) }
        ensures ok { IfOk result (λ _. Commands self.old self.new lb session at command.now) }
        ensures err { IfErr result (λ e. RefusesCommand (λ mark. mark) self.old self.new lb session at command.now e) }
        ensures held { self.new.held ≡ self.old.held }
        ensures stray { MeetsNone self.old self.new }
        ensures kept { KeepsDesk self.old self.new }
    {
        let done = command_at(
            self.books.as_mut_slice(),
            &mut self.receipts,
            self.held.as_slice(),
            Occasion { lb, session, at },
            command,
        );
        count_refusal(&mut self.fulls, &mut self.wides, &done);
        done
    }

    fn look(&mut self, lb: u32) -> Result<View, NoMemory> {
        self.books[lb as usize].view()
    }

    fn shown(shown: &View) -> &View {
        shown
    }
}

// Says that every journal is sound, which each Book's type keeps: it reads a number of each Book.
fn vouch(books: &[Book])
    ensures { AreLegal books.now }
{
    for book in books {
        book.kept();
    }
}

// Counts a Full.
fn count_full(fulls: &mut u64, done: &Result<Choice<PlainLease>, RoomError<FullMark>>)
    ensures { CountsFull fulls.old fulls.new done.now }
{
    if let Err(RoomError::Full(_)) = done {
        *fulls = fulls.saturating_add(1);
    }
}

// Counts a Full or a TooWide.
fn count_refusal(fulls: &mut u64, wides: &mut u64, done: &Result<(), AdminError<FullMark>>)
    ensures { CountsRefusal fulls.old fulls.new wides.old wides.new done.now }
{
    match done {
        Err(AdminError::Full(_)) => *fulls = fulls.saturating_add(1),
        Err(AdminError::TooWide(_)) => *wides = wides.saturating_add(1),
        _ => {}
    }
}

/// What was picked, with its lease among those that are held.
pub fn chosen(held: &mut Vec<(u32, u64)>, lb: u32, picked: Picked) -> Choice<PlainLease>
    requires room { vec_len held.old < vec_capacity held.old }
    requires lease { IsLeaseOf picked.entry.answer picked.lease }
    requires select { picked.entry.answer ≢ Answer.Done }
    ensures choice { IsChosenFor lb picked.entry.answer result }
    ensures held { held.new.items ≡ held.old.items ++ pairs_in lb picked.entry.answer }
{
    let Picked { entry, lease } = picked;
    match lease {
        Some(lease) => {
            let member = lease.member();
            held.push((lb, lease.ticket())).unwrap();
            Choice::Chosen {
                member,
                lease: PlainLease { lb, lease },
            }
        }
        None if entry.answer == Answer::Forced => Choice::Forced,
        None => Choice::NoMember,
    }
}
