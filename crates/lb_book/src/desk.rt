//! A desk: what a session asks for members, and hands leases back to.
ghost use Rattle.std.specs.Prelude.{◌≡◌, ◌≤◌, ◌<◌, true, false, length, Some, IfSome, IfOk, IfErr, OnErr};
ghost use Rattle.lb_model.specs.declared.view.View.{View};

use jk_io::NoMemory;
use lb_model::{AdminError, Ask, Command, Outcome, RoomError, Stray, View};

/// What a desk answered to an ask. A lease must be spent.
#[derive(PartialEq, Eq)]
pub enum Choice<E> {
    /// This member, for as long as the lease isn't handed back.
    Chosen { member: u32, lease: E },
    /// No member may be chosen.
    NoMember,
    /// The session's member doesn't serve, and the balancer forces sessions to stay.
    Forced,
}

/// Which balancer a session calls, and when.
#[derive(Clone, Copy)]
pub struct Occasion {
    pub lb: u32,
    pub session: u32,
    pub at: u64,
}

/// Balancers that a caller asks, of one thread or behind a lock. A balancer is named by its place `lb`.
///
/// Each call finds a journal that is sound and of rules 2, and its entries follow that journal. Where a desk tells its
/// Books, that journal is the told one; a desk over a lock tells none, and then no more is known of the journal.
pub trait Desk {
    ghost use Rattle.std.specs.Prelude.{◌≡◌, ◌≤◌, ◌<◌, true, length, IfSome, IfOk, IfErr, OnErr};
    ghost use Rattle.lb_book.specs.Desks.{
      Chooses,
      Commands,
      DeskState,
      KeepsDesk,
      LeaseNote,
      MeetsNone,
      MeetsStray,
      RefusesChoice,
      RefusesCommand,
      Shows,
      TakesBack,
      holds,
      pair_of,
      without_last,
    };
    ghost use Rattle.lb_model.specs.declared.refusal.FullMark.{FullMark};
    ghost use Rattle.lb_model.specs.declared.view.View.{View};
    ghost use Rattle.lb_model.specs.declared.journal.TheConstants.{MOST_BYTES};

    /// A ticket that is out. Only `choose` makes one, and only `hand_back` spends one.
    type Lease;

    /// The numbers of a Book that refused.
    type Mark;

    /// A balancer as it was looked at.
    type Shown;

    // the receipts, the tickets held and all that is told beside them
    ghost state: { Self → DeskState };

    ghost note: { Self.Lease → LeaseNote };

    ghost numbers: { Self.Mark → FullMark };

    ghost view: { Self.Shown → View };

    /// Asks for a member, after a Maintain if due. A refusal is that of the ask, or of that Maintain.
    fn choose(
        &mut self,
        lb: u32,
        session: u32,
        at: u64,
        ask: &Ask,
    ) -> Result<Choice<Self::Lease>, RoomError<Self::Mark>>
        requires known { lb < length (state self.old).sizes }
        requires caller { IfSome (state self.old).caller (λ n. session ≡ n) }
        ensures ok { IfOk result (λ c. Chooses note (state self.old) (state self.new) lb session at ask.now c) }
        ensures err { IfErr result (λ e. RefusesChoice numbers (state self.old) (state self.new) lb session at e) }
        ensures kept { KeepsDesk (state self.old) (state self.new) };

    /// Hands a lease back, with how its exchange ended. The lease is spent also where its ticket is a stray, which is
    /// then met. It takes no memory.
    fn hand_back(
        &mut self,
        session: u32,
        at: u64,
        lease: Self::Lease,
        outcome: Outcome,
    ) -> Result<(), Stray>
        requires caller { IfSome (state self.old).caller (λ n. session ≡ n) }
        requires held { holds (state self.old).held (pair_of (note lease)) ≡ true }
        requires bytes { outcome.bytes ≤ MOST_BYTES }
        ensures ok { IfOk result (λ _. TakesBack (state self.old) (state self.new) session at (note lease) outcome) }
        ensures err { IfErr result (λ stray. MeetsStray (state self.old) (state self.new) (note lease) stray) }
        ensures held { (state self.new).held ≡ without_last (state self.old).held (pair_of (note lease)) }
        ensures same { ((state self.new).fulls ≡ (state self.old).fulls) × ((state self.new).wides ≡ (state self.old).wides) }
        ensures kept { KeepsDesk (state self.old) (state self.new) };

    /// Does a command, after a Maintain if due. Where that Maintain is refused, its refusal is the answer; else the
    /// sizes and the command decide.
    fn command(
        &mut self,
        lb: u32,
        session: u32,
        at: u64,
        command: &Command,
    ) -> Result<(), AdminError<Self::Mark>>
        requires known { lb < length (state self.old).sizes }
        requires caller { IfSome (state self.old).caller (λ n. session ≡ n) }
        ensures ok { IfOk result (λ _. Commands (state self.old) (state self.new) lb session at command.now) }
        ensures err { IfErr result (λ e. RefusesCommand numbers (state self.old) (state self.new) lb session at command.now e) }
        ensures held { (state self.new).held ≡ (state self.old).held }
        ensures stray { MeetsNone (state self.old) (state self.new) }
        ensures kept { KeepsDesk (state self.old) (state self.new) };

    /// Looks at a balancer. Nothing of what is told changes.
    fn look(&mut self, lb: u32) -> Result<Self::Shown, NoMemory>
        requires known { lb < length (state self.old).sizes }
        ensures shown { IfOk result (λ shown. Shows (state self.old) lb (view shown)) }
        ensures same { state self.new ≡ state self.old };

    /// The view that a look gave.
    fn shown(shown: &Self::Shown) -> &View
        ensures { result.now ≡ view shown.now };
}
