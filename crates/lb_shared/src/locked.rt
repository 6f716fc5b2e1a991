//! The value behind the lock: the Site, and the calls of one hold of it.
ghost use Rattle.std.specs.Prelude.{◌≤◌};
ghost use Rattle.lb_model.specs.declared.journal.TheConstants.{MOST_BYTES};

use crate::account::Account;
use crate::holds::{choose_in, command_in, note};
use crate::ledgers::CutLedger;
use crate::site::{Site, SiteLease, SiteMark, SiteName, SiteSegment, SiteStray, SiteView};
use jk_io::NoMemory;
use lb_book::desk::{Choice, Occasion};
use lb_model::{AdminError, Ask, Command, Outcome, RoomError};
use std::marker::Model;
use std::sync::ledger::{Book as Tally, Share};

/// What a hold that may cut answered, with the segment that it cut.
pub(crate) type Cut<L, T> = (Option<SiteSegment<L>>, T);

/// How a hold that takes a lease back ended, with the segment that it cut before, where there was memory to cut one.
pub(crate) type CutBack<L> = (
    Result<Option<SiteSegment<L>>, NoMemory>,
    Result<(), SiteStray<L>>,
);

/// A lease that a session gives back at a moment, with how its exchange ended.
pub(crate) struct HandedBack<L> {
    pub(crate) session: u32,
    pub(crate) at: u64,
    pub(crate) lease: SiteLease<L>,
    pub(crate) outcome: Outcome,
    ghost bytes: { outcome.bytes ≤ MOST_BYTES },
}

/// A Site whose journals are cut before they grow long, with the ledger of the cuts, and the balancer of the last hold, whether it
/// cut that journal, and how many entries it added.
#[derive(Drop)]
pub(crate) struct Locked<L: SiteName> {
    site: Site<L>,
    cuts: Tally<CutLedger<L>>,
    /// The number of kept entries from which on a journal is cut; 0 is never.
    cut_at: u32,
    lb: u32,
    cut: bool,
    count: usize,
}

impl<L: SiteName> Model for Locked<L> {
    ghost use Rattle.std.specs.Prelude.{◌≡◌};
    ghost use Rattle.lb_shared.specs.Holds.{AreShort, LockedState};

    ghost Value = { LockedState };

    ghost view = { λ l. record { books = l.site; cuts = l.cuts.total; cut_at = l.cut_at; lb = l.lb; cut = l.cut; count = l.count } };

    ghost invariant = { λ l. (l.cut_at ≡ L.cut_at) × AreShort l.cut_at l.site };
}

impl<L: SiteName> Locked<L> {
    ghost use Rattle.std.specs.Prelude.{◌≡◌, ℕ, ◌+◌, ◌<◌, ◌≤◌, ◌↔◌, false, [], length, slice_index, vec_len, vec_capacity, IfOk, IfErr, IsErr, IsErrOf, IsSome, OnOk, OnErr, is_some};
    ghost use Rattle.lb_model.specs.Present.{IsPresent};
    ghost use Rattle.lb_book.specs.Journal.{past_of};
    ghost use Rattle.lb_shared.specs.Holds.{
      CutChooses,
      CutCommands,
      CutDenies,
      CutMeets,
      CutRefuses,
      CutTakesBack,
      CutsFirst,
      EndsHold,
      HoldReturns,
      IsAdminMark,
      IsRoomMark,
      KeepsAccount,
      TellsAdded,
      cut_in,
      hold_of,
      with_cut,
    };
    ghost use Rattle.lb_shared.specs.SharedDesks.{CutsOrWants, IsStrayOf, IsViewOf};
    ghost use Rattle.lb_shared.specs.Sites.{AreSited, At};
    ghost use Rattle.lb_shared.specs.declared.site.TheConstants.{MOST_ENTRIES};

    pub(crate) fn new(site: Site<L>, cuts: Tally<CutLedger<L>>, cut_at: u32) -> Locked<L>
        requires named { cut_at ≡ L.cut_at }
        requires uncut { 0 < cut_at → (lb : ℕ) → At site lb (λ b. b.entries ≡ []) }
        ensures { result ≡ record { books = site; cuts = cuts.total; cut_at = cut_at; lb = 0; cut = false; count = 0 } }
    {
        site.count();
        Locked {
            site,
            cuts,
            cut_at,
            lb: 0,
            cut: false,
            count: 0,
        }
    }

    /// Gives the Site back. The share, which has every part, says how often a journal was cut.
    pub(crate) fn into_site(self, share: Share<CutLedger<L>>) -> Site<L>
        requires whole { share.parts ≡ L.parts }
        ensures books { result ≡ self.books }
        ensures counted { share.amount ≡ self.cuts }
    {
        let mut locked = self;
        let mut share = share;
        locked.cuts.audit(&mut share);
        locked.site
    }

    // Cuts a journal, if it has come to the length at which it is cut, and counts the cut.
    fn cut_first(
        &mut self,
        lb: u32,
        share: &mut Share<CutLedger<L>>,
    ) -> Result<Option<SiteSegment<L>>, NoMemory>
        requires lb { lb < length self.old.books }
        requires part { 0 < share.old.parts }
        ensures ok { IfOk result (CutsFirst self.old.books self.new.books lb) }
        ensures when { IfOk result (λ s. At self.old.books lb (λ b. IsSome s ↔ ((0 < L.cut_at) × (L.cut_at ≤ length b.entries)))) }
        ensures sited { AreSited L.sizes L.firsts self.old.books × AreSited L.sizes L.firsts self.new.books }
        ensures short { OnOk result (0 < self.new.cut_at → At self.new.books lb (λ b. length b.entries < self.new.cut_at)) }
        ensures told { self.new.cut ≡ is_some (cut_in result) }
        ensures counted { self.new.cuts ≡ with_cut (is_some (cut_in result)) self.old.cuts }
        ensures amount { share.new.amount ≡ with_cut (is_some (cut_in result)) share.old.amount }
        ensures parts { share.new.parts ≡ share.old.parts }
        ensures err { OnErr result (self.new ≡ record self.old { cut = false }) }
        ensures same { (self.new.cut_at ≡ self.old.cut_at) × (self.new.lb ≡ self.old.lb) }
    {
        self.cut = false;
        self.site.count();
        if self.cut_at == 0 || self.site.kept(lb) < self.cut_at as u64 {
            return Ok(None);
        }
        let segment = self.site.cut(lb)?;
        self.cut = true;
        self.cuts.add(share, 1);
        self.site.count();
        Ok(Some(segment))
    }

    /// Cuts the journal if due, does a Maintain if due, and then a Select.
    pub(crate) fn choose(
        &mut self,
        on: Occasion,
        ask: &Ask,
        account: &mut Account<L>,
    ) -> Cut<L, Result<Choice<SiteLease<L>>, RoomError<SiteMark<L>>>>
        requires lb { on.lb < length L.sizes }
        requires room { vec_len account.old.receipts + 2 ≤ vec_capacity account.old.receipts }
        ensures ok { IfOk result.1 (CutChooses L.sizes L.firsts result.0 (hold_of self.old account.old) (hold_of self.new account.new) on ask.now) }
        ensures err { IfErr result.1 (CutDenies L.sizes L.firsts result.0 (hold_of self.old account.old) (hold_of self.new account.new) on) }
        ensures when { CutsOrWants L.sizes L.cut_at on.lb result.0 (IsErrOf result.1 RoomError.NoMemory) }
        ensures mark { IfErr result.1 (IsRoomMark on.lb 2) }
        ensures ends { EndsHold on.lb result.0 self.old self.new account.old account.new }
    {
        let before = account.receipts.len();
        self.site.audit(&mut account.share);
        self.lb = on.lb;
        self.count = 0;
        let segment = match self.cut_first(on.lb, &mut account.cuts) {
            Ok(segment) => segment,
            Err(NoMemory) => return (None, Err(RoomError::NoMemory)),
        };
        let done = choose_in(&mut self.site, on, ask, account);
        self.site.audit(&mut account.share);
        self.count = account.receipts.len().saturating_sub(before);
        (segment, done)
    }

    /// Cuts the journal if due, does a Maintain if due, and then a command.
    pub(crate) fn command(
        &mut self,
        on: Occasion,
        command: &Command,
        account: &mut Account<L>,
    ) -> Cut<L, Result<(), AdminError<SiteMark<L>>>>
        requires lb { on.lb < length L.sizes }
        requires room { vec_len account.old.receipts + 2 ≤ vec_capacity account.old.receipts }
        ensures ok { OnOk result.1 (CutCommands L.sizes L.firsts result.0 (hold_of self.old account.old) (hold_of self.new account.new) on command.now) }
        ensures err { IfErr result.1 (CutRefuses L.sizes L.firsts result.0 (hold_of self.old account.old) (hold_of self.new account.new) on command.now) }
        ensures when { CutsOrWants L.sizes L.cut_at on.lb result.0 (IsErrOf result.1 AdminError.NoMemory) }
        ensures mark { IfErr result.1 (IsAdminMark on.lb) }
        ensures ends { EndsHold on.lb result.0 self.old self.new account.old account.new }
    {
        let before = account.receipts.len();
        self.site.audit(&mut account.share);
        self.lb = on.lb;
        self.count = 0;
        let segment = match self.cut_first(on.lb, &mut account.cuts) {
            Ok(segment) => segment,
            Err(NoMemory) => return (None, Err(AdminError::NoMemory)),
        };
        let done = command_in(&mut self.site, on, command, account);
        self.site.audit(&mut account.share);
        self.count = account.receipts.len().saturating_sub(before);
        (segment, done)
    }

    /// Cuts the journal if due, and takes a lease back. Where there is no memory for the cut the journal isn't cut.
    pub(crate) fn give_back(&mut self, back: HandedBack<L>, account: &mut Account<L>) -> CutBack<L>
        requires lb { back.lease.lb < length L.sizes }
        requires room { vec_len account.old.receipts < vec_capacity account.old.receipts }
        ensures ok { OnOk result.1 (CutTakesBack L.sizes L.firsts (cut_in result.0) (hold_of self.old account.old) (hold_of self.new account.new) back) }
        ensures err { OnErr result.1 (CutMeets L.sizes L.firsts (cut_in result.0) (hold_of self.old account.old) (hold_of self.new account.new) back.lease.lb) }
        ensures when { CutsOrWants L.sizes L.cut_at back.lease.lb (cut_in result.0) (IsErr result.0) }
        ensures stray { IfErr result.1 (IsStrayOf L.sizes back.lease) }
        ensures ends { EndsHold back.lease.lb (cut_in result.0) self.old self.new account.old account.new }
    {
        self.site.count();
        let cut = self.cut_first(back.lease.lb(), &mut account.cuts);
        let done = self.take_back(back, account);
        (cut, done)
    }

    // Takes a lease back. It takes no memory.
    fn take_back(
        &mut self,
        back: HandedBack<L>,
        account: &mut Account<L>,
    ) -> Result<(), SiteStray<L>>
        requires lb { back.lease.lb < length L.sizes }
        requires room { vec_len account.old.receipts < vec_capacity account.old.receipts }
        ensures ok { OnOk result (HoldReturns (hold_of self.old account.old) (hold_of self.new account.new) back.session back.at back.lease back.outcome) }
        ensures sited { AreSited L.sizes L.firsts self.old.books }
        ensures stray { IfErr result (IsStrayOf L.sizes back.lease) }
        ensures err { OnErr result (hold_of self.new account.new ≡ hold_of self.old account.old) }
        ensures few { account.new.share.amount ≤ MOST_ENTRIES }
        ensures kept { KeepsAccount account.old account.new }
        ensures news { TellsAdded back.lease.lb self.new account.old account.new }
        ensures uncut { self.new.cut ≡ self.old.cut }
        ensures uncounted { self.new.cuts ≡ self.old.cuts }
    {
        let HandedBack {
            session,
            at,
            lease,
            outcome,
        } = back;
        self.lb = lease.lb();
        self.count = 0;
        self.site.count();
        let done = self
            .site
            .give_back(session, at, lease, outcome, &mut account.share);
        self.site.audit(&mut account.share);
        note(&mut account.receipts, done?);
        self.count = 1;
        Ok(())
    }

    /// The balancer as it is now.
    pub(crate) fn look(&mut self, lb: u32, share: &mut Share<L>) -> Result<SiteView<L>, NoMemory>
        requires lb { lb < length L.sizes }
        ensures ok { IfOk result (IsViewOf L.sizes lb) }
        ensures shown { IfOk result (λ v. At self.old.books lb (λ b. IsPresent b.rules b.opening (past_of b) v.view)) }
        ensures sited { AreSited L.sizes L.firsts self.old.books }
        ensures next { IfOk result (λ v. length L.sizes ≡ 1 → slice_index L.firsts lb + share.old.amount ≤ v.view.next) }
        ensures same { self.new.books ≡ self.old.books }
        ensures amount { share.new.amount ≡ share.old.amount }
        ensures parts { share.new.parts ≡ share.old.parts }
        ensures news { (self.new.count ≡ 0) × (self.new.cut ≡ false) × (self.new.cuts ≡ self.old.cuts) }
    {
        self.site.audit(share);
        self.cut = false;
        self.count = 0;
        self.site.view(lb)
    }
}
