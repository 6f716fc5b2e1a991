//! A desk at a lock, which tells what its seat has seen.

use crate::shared_desk::SharedDesk;
use crate::shelf::Shelf;
use crate::site::{SiteLease, SiteMark, SiteName, SiteView};
use jk_io::NoMemory;
use lb_book::Desk;
use lb_book::desk::Choice;
use lb_model::{AdminError, Ask, Command, Outcome, RoomError, Stray};
use std::sync::Wait;

/// A desk at a lock. After each call its seat is at that lock under its number, and has seen besides as its own just what the
/// desk was told; and its shelf was only added to.
pub trait SeatedDesk: Desk {
    ghost use Rattle.std.specs.Prelude.{◌≡◌, ◌≤◌, ◌<◌, true, length, IfOk, IfErr};
    ghost use Rattle.lb_book.specs.Desks.{
      Chooses,
      Commands,
      KeepsDesk,
      MeetsNone,
      MeetsStray,
      RefusesChoice,
      RefusesCommand,
      Shows,
      TakesBack,
      holds,
      pair_of,
      without_last,
    };
    ghost use Rattle.lb_model.specs.declared.journal.TheConstants.{MOST_BYTES};
    ghost use Rattle.lb_shared.specs.Histories.{SeatNote};
    ghost use Rattle.lb_shared.specs.SharedDesks.{GoesOnHere};
    ghost use Rattle.lb_shared.specs.Shelves.{ShelfNote};

    ghost seat: { Self → SeatNote };

    ghost shelf: { Self → ShelfNote };

    /// As `choose`.
    fn choose_here(
        &mut self,
        lb: u32,
        session: u32,
        at: u64,
        ask: &Ask,
    ) -> Result<Choice<Self::Lease>, RoomError<Self::Mark>>
        requires known { lb < length (Self.state self.old).sizes }
        ensures ok { IfOk result (λ c. Chooses Self.note (Self.state self.old) (Self.state self.new) lb session at ask.now c) }
        ensures err { IfErr result (λ e. RefusesChoice Self.numbers (Self.state self.old) (Self.state self.new) lb session at e) }
        ensures kept { KeepsDesk (Self.state self.old) (Self.state self.new) }
        ensures went { GoesOnHere Self.state seat shelf self.old self.new };

    /// As `hand_back`.
    fn hand_back_here(
        &mut self,
        session: u32,
        at: u64,
        lease: Self::Lease,
        outcome: Outcome,
    ) -> Result<(), Stray>
        requires held { holds (Self.state self.old).held (pair_of (Self.note lease)) ≡ true }
        requires bytes { outcome.bytes ≤ MOST_BYTES }
        ensures ok { IfOk result (λ _. TakesBack (Self.state self.old) (Self.state self.new) session at (Self.note lease) outcome) }
        ensures err { IfErr result (λ stray. MeetsStray (Self.state self.old) (Self.state self.new) (Self.note lease) stray) }
        ensures held { (Self.state self.new).held ≡ without_last (Self.state self.old).held (pair_of (Self.note lease)) }
        ensures same { ((Self.state self.new).fulls ≡ (Self.state self.old).fulls) × ((Self.state self.new).wides ≡ (Self.state self.old).wides) }
        ensures kept { KeepsDesk (Self.state self.old) (Self.state self.new) }
        ensures went { GoesOnHere Self.state seat shelf self.old self.new };

    /// As `command`.
    fn command_here(
        &mut self,
        lb: u32,
        session: u32,
        at: u64,
        command: &Command,
    ) -> Result<(), AdminError<Self::Mark>>
        requires known { lb < length (Self.state self.old).sizes }
        ensures ok { IfOk result (λ _. Commands (Self.state self.old) (Self.state self.new) lb session at command.now) }
        ensures err { IfErr result (λ e. RefusesCommand Self.numbers (Self.state self.old) (Self.state self.new) lb session at command.now e) }
        ensures held { (Self.state self.new).held ≡ (Self.state self.old).held }
        ensures stray { MeetsNone (Self.state self.old) (Self.state self.new) }
        ensures kept { KeepsDesk (Self.state self.old) (Self.state self.new) }
        ensures went { GoesOnHere Self.state seat shelf self.old self.new };

    /// As `look`.
    fn look_here(&mut self, lb: u32) -> Result<Self::Shown, NoMemory>
        requires known { lb < length (Self.state self.old).sizes }
        ensures shown { IfOk result (λ shown. Shows (Self.state self.old) lb (Self.view shown)) }
        ensures same { Self.state self.new ≡ Self.state self.old }
        ensures went { GoesOnHere Self.state seat shelf self.old self.new };
}

impl<'s, 'r, L: SiteName, S: Shelf, R: Wait> SeatedDesk for SharedDesk<'s, 'r, L, S, R> {
    ghost use Rattle.lb_shared.specs.SharedDesks.{shelf_note};

    ghost seat = { λ d. d.seat };

    ghost shelf = { λ d. shelf_note S.shelved S.faults d };

    fn choose_here(
        &mut self,
        lb: u32,
        session: u32,
        at: u64,
        ask: &Ask,
    ) -> Result<Choice<SiteLease<L>>, RoomError<SiteMark<L>>> {
        self.choose(lb, session, at, ask)
    }

    fn hand_back_here(
        &mut self,
        session: u32,
        at: u64,
        lease: SiteLease<L>,
        outcome: Outcome,
    ) -> Result<(), Stray> {
        self.hand_back(session, at, lease, outcome)
    }

    fn command_here(
        &mut self,
        lb: u32,
        session: u32,
        at: u64,
        command: &Command,
    ) -> Result<(), AdminError<SiteMark<L>>> {
        self.command(lb, session, at, command)
    }

    fn look_here(&mut self, lb: u32) -> Result<SiteView<L>, NoMemory> {
        self.look(lb)
    }
}
