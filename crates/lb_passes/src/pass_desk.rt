//! A desk of one caller over books whose callers take turns.
ghost use Rattle.std.specs.Prelude.{◌≡◌, ◌≤◌};
ghost use mathlib.Core.Option.{some};
ghost use lib.ListN.{get_elem?};
ghost use Rattle.lb_book.specs.PlainDesks.{CountsFull, CountsRefusal};
ghost use Rattle.lb_passes.specs.declared.pass.Pass.{Pass};

use crate::calls::{choose_at, command_at, return_at};
use crate::desk_lists::DeskLists;
use crate::holds::{Returned, look_in};
use crate::notes::{meet_at, note_at};
use crate::pass::{Note, Pass, PassList};
use crate::pass_book::PassBook;
use jk_io::NoMemory;
use lb_book::desk::{Choice, Occasion};
use lb_book::{Desk, PlainLease};
use lb_model::{AdminError, Ask, Command, FullMark, Outcome, RoomError, Stray, View};
use std::alloc::Global;
use std::marker::Model;
use std::sync::Wait;

/// A desk with a pass of each balancer. Each call waits for its turn, and then does one hold.
#[derive(Drop)]
pub struct PassDesk<'b, 'r, R> {
    rt: &'r R,
    books: &'b [PassBook],
    passes: Vec<Pass>,
    number: u32,
    lists: DeskLists,
    fulls: u64,
    wides: u64,
}

impl<'b, 'r, R> Model for PassDesk<'b, 'r, R> {
    ghost use Rattle.lb_passes.specs.PassDesks.{IsPassDesk, PassDeskState, desk_value};

    ghost Value = { PassDeskState };

    ghost view = { λ d. desk_value d.number d.passes.items d.lists.receipts.items d.lists.held.items d.fulls d.wides };

    ghost invariant = { λ d. IsPassDesk d.books.now d.passes.items d.number d.lists.held.items };
}

impl<'b, 'r, R> PassDesk<'b, 'r, R> {
    ghost use Rattle.std.specs.Prelude.{◌≡◌, ◌<◌, ℕ, [], length, map};
    ghost use mathlib.Core.Option.{some};
    ghost use lib.ListN.{get_elem?};
    ghost use Rattle.lb_passes.specs.declared.pass.Pass.{Pass};
    ghost use Rattle.lb_passes.specs.Notes.{IsNoteOfPass, MeetsAt};
    ghost use Rattle.lb_passes.specs.PassDesks.{ArePassesOf, LeavesDesk, desk_value, view_of};

    /// A desk with one pass of each book, in order, all of one number. It holds no ticket, and takes no memory.
    pub fn new(
        alloc: Global,
        rt: &'r R,
        books: &'b [PassBook],
        passes: PassList,
    ) -> PassDesk<'b, 'r, R>
        requires passes { ArePassesOf books.now passes }
        ensures { (n : ℕ) × ((lb : ℕ) (p : Pass) → get_elem? passes lb ≡ some p → p.number ≡ n) × (result ≡ desk_value n passes [] [] 0 0) }
    {
        let passes = passes.into_vec();
        let number = number_of(passes.as_slice());
        PassDesk {
            rt,
            books,
            passes,
            number,
            lists: DeskLists {
                receipts: Vec::new(alloc),
                held: Vec::new(alloc),
            },
            fulls: 0,
            wides: 0,
        }
    }

    /// Ends the desk. It takes no memory.
    pub fn into_passes(self) -> PassList
        requires none_held { self.desk.held ≡ [] }
        ensures { result ≡ self.entry.passes }
    {
        PassList::from_vec(self.passes)
    }

    /// A note of what the pass of balancer `lb` has seen. It takes no memory.
    pub fn note(&mut self, lb: u32) -> Note
        requires known { lb < length self.old.desk.sizes }
        ensures note { (p : Pass) → get_elem? self.old.passes lb ≡ some p → IsNoteOfPass p result }
        ensures same { LeavesDesk self.old self.new }
        ensures views { map view_of self.new.passes ≡ map view_of self.old.passes }
    {
        note_at(&self.books[lb as usize], &mut self.passes[lb as usize])
    }

    /// What the note has seen becomes part of what the pass of balancer `lb` has seen. It takes no memory.
    pub fn meet(&mut self, lb: u32, note: Note)
        requires known { lb < length self.old.desk.sizes }
        requires of { (p : Pass) → get_elem? self.old.passes lb ≡ some p → note.seat.table_id ≡ p.seat.table_id }
        ensures same { LeavesDesk self.old self.new }
        ensures meets { MeetsAt self.old self.new lb note }
    {
        meet_at(
            &self.books[lb as usize],
            &mut self.passes[lb as usize],
            note,
        );
    }
}

// The number of the first pass.
fn number_of(passes: &[Pass]) -> u32
    ensures { (p : Pass) → get_elem? passes.now 0 ≡ some p → result ≡ p.number }
{
    match passes {
        [] => 0,
        [first, ..] => first.number,
    }
}

impl<'b, 'r, R: Wait> Desk for PassDesk<'b, 'r, R> {
    ghost use Rattle.std.specs.Prelude.{◌≡◌, ◌<◌, ◌≤◌, true, length, Some, IfSome, IfOk, IfErr, IsOk};
    ghost use Rattle.lb_book.specs.Desks.{
      Chooses,
      Commands,
      LeaseNote,
      MeetsNone,
      MeetsStray,
      RefusesChoice,
      RefusesCommand,
      Shows,
      TakesBack,
      holds,
      pair_of,
      without_last,
    };
    ghost use Rattle.lb_book.specs.PlainLeases.{note_of};
    ghost use Rattle.lb_model.specs.declared.journal.TheConstants.{MOST_BYTES};
    ghost use mathlib.Core.Option.{some};
    ghost use lib.ListN.{get_elem?};
    ghost use Rattle.lb_passes.specs.PassDesks.{KeepsPassDesk, LeavesDesk, MaySee, SeesAt, ShowsSeen, view_of};
    ghost use Rattle.lb_passes.specs.Rooms.{AskFits, CommandFits};
    ghost use Rattle.lb_passes.specs.declared.pass.Pass.{Pass};

    type Lease = PlainLease;

    type Mark = FullMark;

    type Shown = View;

    ghost state = { λ d. d.desk };

    ghost note = { note_of };

    ghost numbers = { λ mark. mark };

    ghost view = { λ view. view };

    fn choose(
        &mut self,
        lb: u32,
        session: u32,
        at: u64,
        ask: &Ask,
    ) -> Result<Choice<PlainLease>, RoomError<FullMark>>
        requires known { lb < length self.old.desk.sizes }
        requires caller { IfSome self.old.desk.caller (λ n. session ≡ n) }
        ensures ok { IfOk result (λ c. Chooses note_of self.old.desk self.new.desk lb session at ask.now c) }
        ensures err { IfErr result (λ e. RefusesChoice (λ mark. mark) self.old.desk self.new.desk lb session at e) }
        ensures keeps { KeepsPassDesk self.old self.new }

        // All that was seen was seen before, or is the call's own, or comes between the two.
        ensures seen { MaySee self.old self.new lb }

        // Full exactly where all that the pass has then seen leaves no room.
        ensures fits { (p : Pass) → get_elem? self.new.passes lb ≡ some p → AskFits (view_of p) result }
    {
        let done = choose_at(
            self.rt,
            &self.books[lb as usize],
            &mut self.passes[lb as usize],
            &mut self.lists,
            Occasion { lb, session, at },
            ask,
        );
        count_full(&mut self.fulls, &done);
        done
    }

    fn hand_back(
        &mut self,
        session: u32,
        at: u64,
        lease: PlainLease,
        outcome: Outcome,
    ) -> Result<(), Stray>
        requires caller { IfSome self.old.desk.caller (λ n. session ≡ n) }
        requires held { holds self.old.desk.held (pair_of (note_of lease)) ≡ true }
        requires bytes { outcome.bytes ≤ MOST_BYTES }

        // A ticket that is held is never a stray.
        ensures back { IsOk result }
        ensures ok { IfOk result (λ _. TakesBack self.old.desk self.new.desk session at (note_of lease) outcome) }
        ensures err { IfErr result (λ stray. MeetsStray self.old.desk self.new.desk (note_of lease) stray) }
        ensures held { self.new.desk.held ≡ without_last self.old.desk.held (pair_of (note_of lease)) }
        ensures same { (self.new.desk.fulls ≡ self.old.desk.fulls) × (self.new.desk.wides ≡ self.old.desk.wides) }
        ensures keeps { KeepsPassDesk self.old self.new }
        ensures seen { SeesAt self.old self.new (note_of lease).lb }
    {
        let (lb, ticket) = lease.into_pair();
        return_at(
            self.rt,
            &self.books[lb as usize],
            &mut self.passes[lb as usize],
            &mut self.lists,
            Occasion { lb, session, at },
            Returned { ticket, outcome },
        );
        Ok(())
    }

    fn command(
        &mut self,
        lb: u32,
        session: u32,
        at: u64,
        command: &Command,
    ) -> Result<(), AdminError<FullMark>>
        requires known { lb < length self.old.desk.sizes }
        requires caller { IfSome self.old.desk.caller (λ n. session ≡ n) }
        ensures ok { IfOk result (λ _. Commands self.old.desk self.new.desk lb session at command.now) }
        ensures err { IfErr result (λ e. RefusesCommand (λ mark. mark) self.old.desk self.new.desk lb session at command.now e) }
        ensures held { self.new.desk.held ≡ self.old.desk.held }
        ensures stray { MeetsNone self.old.desk self.new.desk }
        ensures keeps { KeepsPassDesk self.old self.new }
        ensures seen { MaySee self.old self.new lb }

        // Full and TooWide exactly where all that the pass has then seen makes them so.
        ensures fits { (p : Pass) → get_elem? self.new.passes lb ≡ some p → CommandFits command.now (view_of p) result }
    {
        let done = command_at(
            self.rt,
            &self.books[lb as usize],
            &mut self.passes[lb as usize],
            &mut self.lists,
            Occasion { lb, session, at },
            command,
        );
        count_refusal(&mut self.fulls, &mut self.wides, &done);
        done
    }

    fn look(&mut self, lb: u32) -> Result<View, NoMemory>
        requires known { lb < length self.old.desk.sizes }
        ensures shown { IfOk result (λ shown. Shows self.old.desk lb shown) }
        ensures same { LeavesDesk self.old self.new }

        // It is the view of all that the pass has then seen.
        ensures seen { SeesAt self.old self.new lb }
        ensures present { IfOk result (λ view. ShowsSeen self.new lb view) }
    {
        look_in(
            self.rt,
            &self.books[lb as usize],
            &mut self.passes[lb as usize],
        )
    }

    fn shown(shown: &View) -> &View
        ensures { result.now ≡ shown.now }
    {
        shown
    }
}

// Counts a Full.
fn count_full(fulls: &mut u64, done: &Result<Choice<PlainLease>, RoomError<FullMark>>)
    ensures counted { CountsFull fulls.old fulls.new done.now }
    ensures no_fewer { fulls.old ≤ fulls.new }
{
    if let Err(RoomError::Full(_)) = done {
        *fulls = fulls.saturating_add(1);
    }
}

// Counts a Full or a TooWide.
fn count_refusal(fulls: &mut u64, wides: &mut u64, done: &Result<(), AdminError<FullMark>>)
    ensures counted { CountsRefusal fulls.old fulls.new wides.old wides.new done.now }
    ensures no_fewer { (fulls.old ≤ fulls.new) × (wides.old ≤ wides.new) }
{
    match done {
        Err(AdminError::Full(_)) => *fulls = fulls.saturating_add(1),
        Err(AdminError::TooWide(_)) => *wides = wides.saturating_add(1),
        _ => {}
    }
}
