//! A desk that is lent for a session: what it was told since a moment.
ghost use Rattle.std.specs.Prelude.{◌≡◌};
ghost use Rattle.lb_shared.specs.Histories.{HasGone};
ghost use Rattle.lb_shared.specs.Shelves.{HasShelved};

use crate::seated_desk::SeatedDesk;
use jk_io::NoMemory;
use lb_book::Desk;
use lb_book::desk::Choice;
use lb_model::{AdminError, Ask, Command, Outcome, RoomError, Stray, View};
use std::marker::{Brand, PhantomData};

/// A moment of a desk.
pub trait Moment {
    ghost use Rattle.std.specs.Prelude.{List, ℕ};
    ghost use Rattle.lb_book.specs.declared.receipt.Receipt.{Receipt};
    ghost use Rattle.lb_shared.specs.Histories.{SeatNote};
    ghost use Rattle.lb_shared.specs.Shelves.{ShelfNote};

    // which desk it is
    ghost name: { ℕ };

    // its seat then
    ghost seat: { SeatNote };

    // the receipts that it had then
    ghost receipts: { List Receipt };

    // what its shelf had then
    ghost shelf: { ShelfNote };
}

impl Moment for Brand {
    ghost use Rattle.std.specs.Prelude.{[]};
    ghost use Rattle.lb_shared.specs.Histories.{no_seat};
    ghost use Rattle.lb_shared.specs.Shelves.{no_shelf};

    ghost name = { 0 };

    ghost seat = { no_seat };

    ghost receipts = { [] };

    ghost shelf = { no_shelf };
}

/// A desk that is handed on for a while, and put back.
#[derive(Drop)]
pub struct DeskLoan<'a, B> {
    pub desk: Option<&'a mut B>,
}

/// A desk since the moment M.
#[derive(Drop)]
pub struct LentDesk<'a, B: SeatedDesk, M: Moment> {
    pub desk: &'a mut B,
    pub of: PhantomData<M>,
    pub ghost same: { desk.ghost_name ≡ M.name },
    pub ghost gone: { HasGone M.seat M.receipts (B.seat desk.now) (B.state desk.now).receipts },
    pub ghost shelved: { HasShelved M.shelf (B.shelf desk.now) },
}

impl<'a, B: SeatedDesk, M: Moment> Desk for LentDesk<'a, B, M> {
    type Lease = B::Lease;

    type Mark = B::Mark;

    type Shown = B::Shown;

    ghost state = { λ d. B.state d.desk.now };

    ghost note = { λ lease. B.note lease };

    ghost numbers = { λ mark. B.numbers mark };

    ghost view = { λ view. B.view view };

    fn choose(
        &mut self,
        lb: u32,
        session: u32,
        at: u64,
        ask: &Ask,
    ) -> Result<Choice<B::Lease>, RoomError<B::Mark>> {
        self.desk.choose_here(lb, session, at, ask)
    }

    fn hand_back(
        &mut self,
        session: u32,
        at: u64,
        lease: B::Lease,
        outcome: Outcome,
    ) -> Result<(), Stray> {
        self.desk.hand_back_here(session, at, lease, outcome)
    }

    fn command(
        &mut self,
        lb: u32,
        session: u32,
        at: u64,
        command: &Command,
    ) -> Result<(), AdminError<B::Mark>> {
        self.desk.command_here(lb, session, at, command)
    }

    fn look(&mut self, lb: u32) -> Result<B::Shown, NoMemory> {
        self.desk.look_here(lb)
    }

    fn shown(shown: &B::Shown) -> &View {
        B::shown(shown)
    }
}
