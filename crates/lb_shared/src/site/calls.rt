//! The calls of a Site that add entries. Each does what the Book's call of its name does, on one Book.
ghost use Rattle.std.specs.Prelude.{◌≡◌, ◌+◌, ◌<◌};
ghost use Rattle.lb_shared.specs.Notes.{lease_at, marked_admin, marked_room};

use super::{MarkKind, Site, SiteLease, SiteMark, SiteName, SitePicked, SiteReceipt, SiteStray};
use lb_book::{Lease, Picked, Receipt};
use lb_model::{AdminError, Ask, Command, Entry, FullMark, Outcome, RoomError};
use std::marker::PhantomData;
use std::sync::ledger::{Book as Tally, Share};

impl<L: SiteName> Site<L> {
    ghost use Rattle.std.specs.Prelude.{◌≡◌, ◌+◌, ◌<◌, ◌≤◌, ◌↔◌, true, false, length, slice_index, IfOk, IfErr, IfSome, IsOk, OnErr, OnOk, MatchOption, MatchResult};
    ghost use Rattle.lb_model.specs.Choice.{IsPick};
    ghost use Rattle.lb_model.specs.Free.{is_in};
    ghost use Rattle.lb_model.specs.Tickets.{is_out};
    ghost use Rattle.lb_model.specs.declared.journal.Call.{Call};
    ghost use Rattle.lb_book.specs.Journal.{IsSound, past_of};
    ghost use Rattle.lb_rules.specs.Returns.{IsReturnedAt};
    ghost use Rattle.lb_book.specs.ToldBooks.{IsNoneDue};
    ghost use Rattle.lb_shared.specs.Notes.{lease_of};
    ghost use Rattle.lb_shared.specs.Sites.{AddsAt, At, LeavesSite};
    ghost use Rattle.lb_shared.specs.SiteAnswers.{IsCommandedAt, IsMaintenanceAt, IsRoomAt};
    ghost use Rattle.lb_model.specs.declared.journal.TheConstants.{MOST_BYTES};

    /// Answers an ask of a session at a moment. It takes the room for the Return of the ticket, too.
    pub fn select(
        &mut self,
        lb: u32,
        session: u32,
        at: u64,
        ask: &Ask,
        share: &mut Share<L>,
    ) -> Result<SitePicked<L>, RoomError<SiteMark<L>>>
        requires lb { lb < length self.old }
        requires none_due { At self.old lb (λ b. IsNoneDue b at) }
        requires part { 0 < share.old.parts }
        ensures ok { IfOk result (λ picked. AddsAt self.old self.new lb session at (Call.Select ask.now) picked.receipt) }
        ensures pick { At self.old lb (λ b. IfOk result (λ picked.
            IsPick b.rules b.opening (past_of b) ask.now picked.receipt.entry.answer)) }
        ensures lease { IfOk result (λ picked. picked.lease ≡ lease_of lb picked.receipt.entry.answer) }

        // A chosen member is one of the balancer's, and wasn't tried.
        ensures member { IfOk result (λ picked. IfSome picked.lease (λ lease.
            (lease.member < slice_index L.sizes lb) × (is_in ask.now.tried lease.member ≡ false))) }

        // Full comes exactly where no two numbers are left for the entry and its ticket's Return.
        ensures full { At self.old lb (λ b. IsRoomAt lb 2 b result) }
        ensures leaves { LeavesSite lb self.old self.new share.old share.new result }
    {
        match self.books[lb as usize].select(session, at, ask) {
            Ok(Picked { entry, lease }) => {
                count_entry(&mut self.total, share);
                Ok(SitePicked {
                    receipt: receipt_of(lb, at, entry),
                    lease: lease_at(lb, lease),
                })
            }
            Err(error) => Err(room_refused(lb, error)),
        }
    }

    /// Takes a lease back, with how its exchange ended. The lease is spent also where it is refused. It takes no memory.
    pub fn give_back(
        &mut self,
        session: u32,
        at: u64,
        lease: SiteLease<L>,
        outcome: Outcome,
        share: &mut Share<L>,
    ) -> Result<SiteReceipt<L>, SiteStray<L>>
        requires lb { lease.lb < length self.old }
        requires bytes { outcome.bytes ≤ MOST_BYTES }
        requires part { 0 < share.old.parts }
        ensures found { At self.old lease.lb (λ b. IsOk result ↔ (is_out b.opening (past_of b) lease.ticket ≡ true)) }
        ensures ok { IfOk result (λ r. AddsAt self.old self.new lease.lb session at (Call.Return lease.ticket outcome) r) }

        // A ticket that isn't out is a stray.
        ensures stray { IfErr result (λ s. (s.lb ≡ lease.lb) × (s.stray.ticket ≡ lease.ticket)) }
        ensures returned { IfErr result (λ s. At self.old lease.lb (λ b. IsReturnedAt (past_of b) lease.ticket s.stray.returned_at)) }
        ensures leaves { LeavesSite lease.lb self.old self.new share.old share.new result }
    {
        let SiteLease {
            lb,
            member: _,
            ticket,
            of: _,
        } = lease;
        match self.books[lb as usize].return_ticket(session, at, ticket, outcome) {
            Ok(entry) => {
                count_entry(&mut self.total, share);
                Ok(receipt_of(lb, at, entry))
            }
            Err(stray) => Err(SiteStray {
                lb,
                stray,
                of: PhantomData,
            }),
        }
    }

    /// Does a maintenance if due.
    pub fn maintain_if_due(
        &mut self,
        lb: u32,
        session: u32,
        at: u64,
        share: &mut Share<L>,
    ) -> Result<Option<SiteReceipt<L>>, RoomError<SiteMark<L>>>
        requires lb { lb < length self.old }
        requires part { 0 < share.old.parts }
        ensures ok { IfOk result (λ found. MatchOption found (self.new ≡ self.old) (λ r. AddsAt self.old self.new lb session at Call.Maintain r)) }
        ensures sound { At self.new lb IsSound }

        // No maintenance is due any more for a call at this moment.
        ensures up_to_date { OnOk result (At self.new lb (λ b. IsNoneDue b at)) }

        // No maintenance is done exactly where none is due, and there none is refused.
        ensures due { At self.old lb (λ b. IsMaintenanceAt lb b at result) }
        ensures err { OnErr result (self.new ≡ self.old) }
        ensures amount { MatchResult result
            (λ found. MatchOption found (share.new.amount ≡ share.old.amount) (λ _. share.new.amount ≡ share.old.amount + 1))
            (λ _. share.new.amount ≡ share.old.amount) }
        ensures parts { share.new.parts ≡ share.old.parts }
    {
        match self.books[lb as usize].maintain_if_due(session, at) {
            Ok(Some(entry)) => {
                count_entry(&mut self.total, share);
                Ok(Some(receipt_of(lb, at, entry)))
            }
            Ok(None) => Ok(None),
            Err(error) => Err(room_refused(lb, error)),
        }
    }

    /// Does a command: an update of a member, or its reset or recovery.
    pub fn admin(
        &mut self,
        lb: u32,
        session: u32,
        at: u64,
        command: &Command,
        share: &mut Share<L>,
    ) -> Result<SiteReceipt<L>, AdminError<SiteMark<L>>>
        requires lb { lb < length self.old }
        requires none_due { At self.old lb (λ b. IsNoneDue b at) }
        requires part { 0 < share.old.parts }
        ensures ok { IfOk result (λ r. AddsAt self.old self.new lb session at (Call.Admin command.now) r) }

        // The first refusal that holds is the answer; where none holds, an entry is added.
        ensures commanded { At self.old lb (λ b. IsCommandedAt lb b command.now result) }
        ensures leaves { LeavesSite lb self.old self.new share.old share.new result }
    {
        match self.books[lb as usize].admin(session, at, command) {
            Ok(entry) => {
                count_entry(&mut self.total, share);
                Ok(receipt_of(lb, at, entry))
            }
            Err(error) => Err(admin_refused(lb, error)),
        }
    }
}

// Counts an entry, for the ledger and the share.
fn count_entry<L: SiteName>(total: &mut Tally<L>, share: &mut Share<L>)
    requires part { 0 < share.old.parts }
    ensures total { total.new.total ≡ total.old.total + 1 }
    ensures amount { share.new.amount ≡ share.old.amount + 1 }
    ensures parts { share.new.parts ≡ share.old.parts }
{
    total.add(share, 1);
}

// The receipt of an entry of balancer lb.
fn receipt_of<L>(lb: u32, given: u64, entry: Entry) -> SiteReceipt<L>
    ensures { result ≡ record { lb = lb; given = given; entry = entry } }
{
    SiteReceipt {
        receipt: Receipt { lb, given, entry },
        of: PhantomData,
    }
}

// A lease of the Book of balancer lb.
fn lease_at<L>(lb: u32, lease: Option<Lease>) -> Option<SiteLease<L>>
    ensures { result ≡ lease_at lb lease }
{
    match lease {
        Some(lease) => {
            let member = lease.member();
            Some(SiteLease {
                lb,
                member,
                ticket: lease.into_ticket(),
                of: PhantomData,
            })
        }
        None => None,
    }
}

// A refusal of the Book of balancer lb.
fn room_refused<L>(lb: u32, error: RoomError<FullMark>) -> RoomError<SiteMark<L>>
    ensures { result ≡ marked_room lb error }
{
    match error {
        RoomError::Full(numbers) => RoomError::Full(mark_of(lb, MarkKind::Full, numbers)),
        RoomError::NoMemory => RoomError::NoMemory,
    }
}

fn admin_refused<L>(lb: u32, error: AdminError<FullMark>) -> AdminError<SiteMark<L>>
    ensures { result ≡ marked_admin lb error }
{
    match error {
        AdminError::UnknownMember => AdminError::UnknownMember,
        AdminError::BadValue => AdminError::BadValue,
        AdminError::TooWide(numbers) => AdminError::TooWide(mark_of(
            lb,
            MarkKind::TooWide,
            numbers,
        )),
        AdminError::Full(numbers) => AdminError::Full(mark_of(lb, MarkKind::Full, numbers)),
        AdminError::NoMemory => AdminError::NoMemory,
    }
}

fn mark_of<L>(lb: u32, refusal: MarkKind, numbers: FullMark) -> SiteMark<L>
    ensures { result ≡ record { lb = lb; refusal = refusal; numbers = numbers } }
{
    SiteMark {
        lb,
        refusal,
        numbers,
        of: PhantomData,
    }
}
