//! A desk of one thread over the Site that all threads share.
ghost use Rattle.std.specs.Prelude.{◌≡◌, ◌+◌, ◌<◌, ◌≤◌, is_err, length};
ghost use Rattle.lb_shared.specs.Histories.{cut_count, own_count};
ghost use Rattle.lb_shared.specs.Holds.{cut_in};
ghost use Rattle.lb_shared.specs.SharedDesks.{CountsFull, CountsRefusal, PutsAway, first_met};

use crate::account::Account;
use crate::ledgers::{CutLedger, DeskShare};
use crate::left_seat::LeftSeat;
use crate::locked::HandedBack;
use crate::shared_site::SharedSite;
use crate::shelf::Shelf;
use crate::site::{
    SiteLease, SiteMark, SiteName, SiteReceiptList, SiteSegment, SiteStray, SiteView,
};
use crate::stake::Stake;
use jk_io::{IoError, NoMemory};
use lb_book::Desk;
use lb_book::desk::{Choice, Occasion};
use lb_model::{AdminError, Ask, Command, Outcome, RoomError, Stray, View};
use std::alloc::Global;
use std::marker::Model;
use std::sync::Wait;
use std::sync::ledger::Share;

/// The most entries that a choosing or commanding hold adds: a Maintain and the call's own.
const MAINTAIN_AND_CALL: usize = 2;

/// What a Return adds.
const RETURN_ALONE: usize = 1;

/// A desk over a shared Site. Each call is one hold of the lock; a segment that it cut goes to the shelf after the hold. Before
/// a hold that adds entries the shelf lets the desk wait, where too many aren't kept yet.
#[derive(Drop)]
pub struct SharedDesk<'s, 'r, L: SiteName, S: Shelf, R> {
    stake: Stake<'s, 'r, L, R>,
    shelf: S,
    /// The first stray that was met since the last was taken.
    met: Option<SiteStray<L>>,
    strays: u64,
    fulls: u64,
    wides: u64,
    wants: u64,
}

impl<'s, 'r, L: SiteName, S: Shelf, R> Model for SharedDesk<'s, 'r, L, S, R> {
    ghost use Rattle.lb_shared.specs.SharedDesks.{SharedState, stray_in};
    ghost use Rattle.lb_shared.specs.Stakes.{told_of};

    ghost Value = { SharedState S };

    ghost view = { λ d. record {
      desk = told_of L.sizes d.stake d.strays d.fulls d.wides (stray_in d.met);
      shelf = d.shelf;
      forgotten = d.stake.forgotten;
      wants = d.wants;
      met = d.met;
      seat = d.stake.seat;
    } };
}

/// What a desk leaves: its share, the receipts that it has, how many it forgot, its shelf, its seat at the lock, and as many parts of
/// the ledger of the cuts. The shares count just the entries and the cuts that its seat has seen as its own.
#[derive(Drop)]
pub struct Leaving<L: SiteName, S> {
    pub share: Share<L>,
    pub receipts: SiteReceiptList<L>,
    pub forgotten: u64,
    pub shelf: S,
    pub seat: LeftSeat<L>,
    pub cuts: Share<CutLedger<L>>,
    pub ghost part: { 0 < share.parts },
    pub ghost counted: { share.amount ≡ length receipts + forgotten },
    pub ghost own: { own_count seat ≡ share.amount },
    pub ghost even: { cuts.parts ≡ share.parts },
    pub ghost own_cuts: { cut_count seat ≡ cuts.amount },
}

impl<'s, 'r, L: SiteName, S: Shelf, R> SharedDesk<'s, 'r, L, S, R> {
    ghost use Rattle.std.specs.Prelude.{◌≡◌, ◌+◌, ◌<◌, ◌≤◌, [], None, true, length, IsErr};
    ghost use Rattle.lb_book.specs.Desks.{holds, pair_of};
    ghost use Rattle.lb_model.specs.declared.journal.TheConstants.{MOST_BYTES};
    ghost use Rattle.lb_shared.specs.Locks.{lock_of};
    ghost use Rattle.lb_shared.specs.SharedDesks.{HandsBack, PutsAwayOf, SharedState, shared_desk, stray_in};

    /// A desk with a part of both ledgers, without a receipt or a ticket. It takes no memory.
    pub fn new(
        alloc: Global,
        site: &'s SharedSite<'r, L, R>,
        share: DeskShare<L>,
        shelf: S,
    ) -> SharedDesk<'s, 'r, L, S, R>
        requires part { 0 < share.parts }
        requires amount { share.amount ≡ 0 }
        ensures desk { result.desk ≡ shared_desk L.sizes share.parts [] [] 0 0 0 0 None }
        ensures shelf { result.shelf ≡ shelf }
        ensures none { (result.forgotten ≡ 0) × (result.wants ≡ 0) × (result.met ≡ None) }
        ensures nothing_seen { result.seat.seen ≡ [] }
        ensures no_steps { (result.seat.steps ≡ []) × (result.seat.starts ≡ L.starts) }
        ensures lock { result.seat.lock ≡ lock_of site.now }
    {
        SharedDesk {
            stake: Stake::new(alloc, site, share),
            shelf,
            met: None,
            strays: 0,
            fulls: 0,
            wides: 0,
            wants: 0,
        }
    }

    /// Drops the receipts, which stay counted. The room for those of the Returns to come stays. It takes no memory.
    pub fn forget(&mut self)
        ensures receipts { self.new.desk ≡ record self.old.desk { receipts = [] } }
        ensures forgotten { self.new.forgotten ≡ self.old.forgotten + length self.old.desk.receipts }
        ensures same { (self.new.shelf ≡ self.old.shelf) × (self.new.wants ≡ self.old.wants) × (self.new.met ≡ self.old.met) }
        ensures seat { self.new.seat ≡ self.old.seat }
    {
        self.stake.forget();
    }

    /// Takes the first stray that was met since this was called last.
    pub fn take_stray(&mut self) -> Option<SiteStray<L>>
        ensures value { result ≡ self.old.met }
        ensures met { self.old.desk.met ≡ stray_in result }
        ensures taken { self.new ≡ record self.old { met = None; desk = record self.old.desk { met = None } } }
    {
        self.met.take()
    }

    /// The shelf's count of faults.
    pub fn shelf_faults(&self) -> u64
        ensures { result ≡ S.faults self.now.shelf }
    {
        self.shelf.failed()
    }

    /// The number of segments for which the shelf wanted memory.
    pub fn shelf_wants(&self) -> u64
        ensures { result ≡ self.now.wants }
    {
        self.wants
    }

    /// As `hand_back`, and says whether there was memory for the cut before it, if one was due.
    pub fn take_back(
        &mut self,
        session: u32,
        at: u64,
        lease: SiteLease<L>,
        outcome: Outcome,
    ) -> (Result<(), NoMemory>, Result<(), Stray>)
    where
        R: Wait,
        requires held { holds self.old.desk.held (pair_of lease) ≡ true }
        requires bytes { outcome.bytes ≤ MOST_BYTES }
        ensures back { HandsBack L.starts self.old self.new session at lease outcome result.1 }

        // A segment that the hold cut is put away after it. It cuts exactly where the journal has come to its length and there
        // is memory for the cut.
        ensures shelf { PutsAwayOf S.shelved S.faults L.sizes L.cut_at lease.lb self.old self.new (IsErr result.0) }
    {
        let before = self.stake.count();
        let admission = self
            .shelf
            .admit(lease.lb(), RETURN_ALONE, self.stake.cut_at());
        let back = HandedBack {
            session,
            at,
            lease,
            outcome,
        };
        let (cut, done) = self.stake.give_back(back, &admission);
        let kept = put_cut(&mut self.shelf, &mut self.wants, cut);
        self.shelf
            .settle(admission, self.stake.count().saturating_sub(before));
        match done {
            Ok(()) => (kept, Ok(())),
            Err(stray) => {
                let told = stray.stray();
                meet(&mut self.met, stray);
                self.strays = self.strays.saturating_add(1);
                (kept, Err(told))
            }
        }
    }

    /// Ends the desk. The share's amount is the number of the receipts and of those that were forgotten, and that of the other share the
    /// number of its cuts. It takes no memory.
    pub fn leave(self) -> Leaving<L, S>
        requires none_held { self.desk.held ≡ [] }
        ensures receipts { result.receipts ≡ self.entry.desk.receipts }
        ensures forgotten { result.forgotten ≡ self.entry.forgotten }
        ensures shelf { result.shelf ≡ self.entry.shelf }
        ensures amount { result.share.amount ≡ self.entry.desk.added }
        ensures parts { self.entry.desk.parts ≡ Some result.share.parts }
        ensures seat { result.seat ≡ self.entry.seat }
    {
        let SharedDesk {
            stake,
            shelf,
            met: _,
            strays: _,
            fulls: _,
            wides: _,
            wants: _,
        } = self;
        let Stake {
            site: _,
            account,
            forgotten,
            held: _,
            seat,
        } = stake;
        let Account {
            share,
            cuts,
            receipts,
        } = account;
        Leaving {
            share,
            receipts: SiteReceiptList::from_vec(receipts),
            forgotten,
            shelf,
            seat: LeftSeat::new(seat),
            cuts,
        }
    }
}

impl<'s, 'r, L: SiteName, S: Shelf, R: Wait> Desk for SharedDesk<'s, 'r, L, S, R> {
    ghost use Rattle.std.specs.Prelude.{◌≡◌, ◌+◌, ◌<◌, ◌≤◌, true, length, slice_index, IfOk, IfErr, IsErrOf, ⊤};
    ghost use Rattle.lb_book.specs.Desks.{
      Chooses,
      Commands,
      KeepsDesk,
      LeaseNote,
      MeetsNone,
      RefusesChoice,
      RefusesCommand,
      Shows,
      holds,
      pair_of,
    };
    ghost use Rattle.lb_shared.specs.Histories.{DeskMaySee, LooksAt, gained_in};
    ghost use Rattle.lb_shared.specs.Holds.{IsAdminMark, IsRoomMark};
    ghost use Rattle.lb_shared.specs.SharedDesks.{HandsBack, PutsAwayOf};
    ghost use Rattle.lb_model.specs.declared.journal.TheConstants.{MOST_BYTES};

    type Lease = SiteLease<L>;

    type Mark = SiteMark<L>;

    type Shown = SiteView<L>;

    ghost state = { λ d. d.desk };

    ghost note = { λ lease. lease };

    ghost numbers = { λ mark. mark.numbers };

    ghost view = { λ view. view.view };

    fn choose(
        &mut self,
        lb: u32,
        session: u32,
        at: u64,
        ask: &Ask,
    ) -> Result<Choice<SiteLease<L>>, RoomError<SiteMark<L>>>
        requires known { lb < length self.old.desk.sizes }
        ensures ok { IfOk result (λ c. Chooses (λ lease. lease) self.old.desk self.new.desk lb session at ask.now c) }
        ensures err { IfErr result (λ e. RefusesChoice (λ mark. mark.numbers) self.old.desk self.new.desk lb session at e) }
        ensures kept { KeepsDesk self.old.desk self.new.desk }

        // Full comes only with a mark of this balancer, whose numbers leave no room for the entry and its Return.
        ensures mark { IfErr result (IsRoomMark lb 2) }

        // A segment that the hold cut is put away after it. It cuts exactly where the journal has come to its length. The segment is
        // the journal that the history seen before the cut left of the balancer.
        ensures shelf { PutsAwayOf S.shelved S.faults L.sizes L.cut_at lb self.old self.new (IsErrOf result RoomError.NoMemory) }

        // What the desk has seen: a history of the Site that begins with what it had seen, and ends with the entries of this
        // call. It has no other new entry of this desk. Only where memory was wanted no hold may have been made.
        ensures sees { DeskMaySee L.starts self.old.seat self.new.seat (gained_in self.old.desk.receipts self.new.desk.receipts) (IsErrOf result RoomError.NoMemory) }
        ensures met { self.new.met ≡ self.old.met }
    {
        let before = self.stake.count();
        let admission = self.shelf.admit(lb, MAINTAIN_AND_CALL, self.stake.cut_at());
        let (segment, done) = self
            .stake
            .choose(Occasion { lb, session, at }, ask, &admission);
        put_away(&mut self.shelf, &mut self.wants, segment);
        self.shelf
            .settle(admission, self.stake.count().saturating_sub(before));
        count_full(&mut self.fulls, &done);
        done
    }

    fn hand_back(
        &mut self,
        session: u32,
        at: u64,
        lease: SiteLease<L>,
        outcome: Outcome,
    ) -> Result<(), Stray>
        requires held { holds self.old.desk.held (pair_of lease) ≡ true }
        requires bytes { outcome.bytes ≤ MOST_BYTES }
        ensures back { HandsBack L.starts self.old self.new session at lease outcome result }

        // A segment that the hold cut is put away after it. `take_back`, of which this is the second half of the answer, says when
        // it cuts.
        ensures shelf { PutsAwayOf S.shelved S.faults L.sizes L.cut_at lease.lb self.old self.new ⊤ }
    {
        self.take_back(session, at, lease, outcome).1
    }

    fn command(
        &mut self,
        lb: u32,
        session: u32,
        at: u64,
        command: &Command,
    ) -> Result<(), AdminError<SiteMark<L>>>
        requires known { lb < length self.old.desk.sizes }
        ensures ok { IfOk result (λ _. Commands self.old.desk self.new.desk lb session at command.now) }
        ensures err { IfErr result (λ e. RefusesCommand (λ mark. mark.numbers) self.old.desk self.new.desk lb session at command.now e) }
        ensures held { self.new.desk.held ≡ self.old.desk.held }
        ensures stray { MeetsNone self.old.desk self.new.desk }
        ensures kept { KeepsDesk self.old.desk self.new.desk }

        // Full and TooWide come only with a mark of this balancer.
        ensures mark { IfErr result (IsAdminMark lb) }
        ensures shelf { PutsAwayOf S.shelved S.faults L.sizes L.cut_at lb self.old self.new (IsErrOf result AdminError.NoMemory) }
        ensures sees { DeskMaySee L.starts self.old.seat self.new.seat (gained_in self.old.desk.receipts self.new.desk.receipts) (IsErrOf result AdminError.NoMemory) }
        ensures met { self.new.met ≡ self.old.met }
    {
        let before = self.stake.count();
        let admission = self.shelf.admit(lb, MAINTAIN_AND_CALL, self.stake.cut_at());
        let (segment, done) = self
            .stake
            .command(Occasion { lb, session, at }, command, &admission);
        put_away(&mut self.shelf, &mut self.wants, segment);
        self.shelf
            .settle(admission, self.stake.count().saturating_sub(before));
        count_refusal(&mut self.fulls, &mut self.wides, &done);
        done
    }

    fn look(&mut self, lb: u32) -> Result<SiteView<L>, NoMemory>
        requires known { lb < length self.old.desk.sizes }
        ensures shown { IfOk result (λ shown. Shows self.old.desk lb shown.view) }
        ensures same { self.new ≡ record self.old { seat = self.new.seat } }

        // The view is that of the history that the desk has seen then. A look cuts nothing.
        ensures looks { LooksAt L.starts self.old.seat self.new.seat lb result }

        // Where there is one balancer, all entries of the desk come before the next one.
        ensures next { IfOk result (λ shown. length self.old.desk.sizes ≡ 1
            → slice_index L.firsts lb + self.old.desk.added ≤ shown.view.next) }
        ensures lb { IfOk result (λ shown. shown.lb ≡ lb) }
    {
        self.stake.look(lb)
    }

    fn shown(shown: &SiteView<L>) -> &View {
        shown.view()
    }
}

// Puts a segment away, where there is one, and counts the want of memory on the shelf.
fn put_away<L, S: Shelf>(shelf: &mut S, wants: &mut u64, cut: Option<SiteSegment<L>>)
    ensures { PutsAway S.shelved S.faults shelf.old shelf.new wants.old wants.new cut }
{
    let Some(segment) = cut else { return };
    match segment.keep_in(shelf) {
        Ok(()) => {}
        Err(IoError::Failed) => {}
        Err(IoError::NoMemory) => *wants = wants.saturating_add(1),
    }
}

// Puts the segment of a Return away, where there is one, and says whether there was memory to cut it.
fn put_cut<L, S: Shelf>(
    shelf: &mut S,
    wants: &mut u64,
    cut: Result<Option<SiteSegment<L>>, NoMemory>,
) -> Result<(), NoMemory>
    ensures put { PutsAway S.shelved S.faults shelf.old shelf.new wants.old wants.new (cut_in cut) }
    ensures err { is_err result ≡ is_err cut }
{
    put_away(shelf, wants, cut?);
    Ok(())
}

// Keeps a stray, unless there is one already.
fn meet<L>(met: &mut Option<SiteStray<L>>, stray: SiteStray<L>)
    ensures { met.new ≡ first_met met.old stray }
{
    if met.is_none() {
        *met = Some(stray);
    }
}

// Counts a Full.
fn count_full<L>(fulls: &mut u64, done: &Result<Choice<SiteLease<L>>, RoomError<SiteMark<L>>>)
    ensures counted { CountsFull fulls.old fulls.new done.now }
    ensures no_fewer { fulls.old ≤ fulls.new }
{
    if let Err(RoomError::Full(_)) = done {
        *fulls = fulls.saturating_add(1);
    }
}

// Counts a Full or a TooWide.
fn count_refusal<L>(fulls: &mut u64, wides: &mut u64, done: &Result<(), AdminError<SiteMark<L>>>)
    ensures counted { CountsRefusal fulls.old fulls.new wides.old wides.new done.now }
    ensures no_fewer { (fulls.old ≤ fulls.new) × (wides.old ≤ wides.new) }
{
    match done {
        Err(AdminError::Full(_)) => *fulls = fulls.saturating_add(1),
        Err(AdminError::TooWide(_)) => *wides = wides.saturating_add(1),
        _ => {}
    }
}
