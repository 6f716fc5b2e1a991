//! A desk's stake of the Site that is shared, and each hold of the Site's lock: the value is taken, the call is made on it,
//! and it goes home with its history.
ghost use Rattle.std.specs.Prelude.{◌≡◌, ◌++◌, ◌+◌, ◌<◌, ◌≤◌, vec_len, vec_capacity, IfOk, OnErr, OnOk};
ghost use Rattle.lb_book.specs.Desks.{is_pair, without_last};
ghost use Rattle.lb_shared.specs.SharedDesks.{IsLastPlace, pairs_of};

use crate::account::Account;
use crate::ledgers::DeskShare;
use crate::locked::{Cut, CutBack, HandedBack};
use crate::shared_site::SharedSite;
use crate::shelf::Admission;
use crate::site::{SiteLease, SiteMark, SiteName, SiteView};
use crate::told::SiteSeat;
use jk_io::NoMemory;
use lb_book::desk::{Choice, Occasion};
use lb_model::{AdminError, Ask, Command, RoomError};
use std::alloc::Global;
use std::marker::Model;
use std::sync::Wait;

/// A part of both ledgers with the receipts of what it counts, the tickets that are out, and a seat at the lock.
#[derive(Drop)]
pub(crate) struct Stake<'s, 'r, L: SiteName, R> {
    pub(crate) site: &'s SharedSite<'r, L, R>,
    pub(crate) account: Account<L>,
    /// How many receipts were dropped, which stay counted.
    pub(crate) forgotten: u64,
    /// Balancer and ticket of each lease that is out, in the order of the choices.
    pub(crate) held: Vec<(u32, u64)>,
    pub(crate) seat: SiteSeat<L>,
}

impl<'s, 'r, L: SiteName, R> Model for Stake<'s, 'r, L, R> {
    ghost use Rattle.std.specs.Prelude.{◌≡◌, length, vec_capacity};
    ghost use Rattle.lb_shared.specs.Histories.{IsResting, cut_count, own_count, seat_note};
    ghost use Rattle.lb_shared.specs.SharedDesks.{IsShared};
    ghost use Rattle.lb_shared.specs.Stakes.{StakeState};

    ghost Value = { StakeState };

    ghost view = { λ s. record {
      parts = s.account.share.parts;
      amount = s.account.share.amount;
      receipts = s.account.receipts.items;
      room = vec_capacity s.account.receipts;
      forgotten = s.forgotten;
      held = s.held.items;
      seat = seat_note L.starts s.seat.table_id s.seat.me;
    } };

    // Each entry of the share has a receipt, or had one that was forgotten; there is room for the receipts of the Returns to come;
    // and the seat, which rests at the Site's lock, has seen as its own as many entries, and as many cuts as it counts.
    ghost invariant = { λ s. IsShared (length L.sizes) s.account.receipts.items s.held.items s.account.share.parts s.account.share.amount s.forgotten
        (vec_capacity s.account.receipts)
        × (s.seat.table_id ≡ s.site.now.lock.table.shared.table_id) × IsResting s.seat.me
        × (own_count (seat_note L.starts s.seat.table_id s.seat.me) ≡ s.account.share.amount)
        × (cut_count (seat_note L.starts s.seat.table_id s.seat.me) ≡ s.account.cuts.amount) };
}

impl<'s, 'r, L: SiteName, R> Stake<'s, 'r, L, R> {
    ghost use Rattle.std.specs.Prelude.{◌≡◌, ◌+◌, ◌<◌, ◌≤◌, [], true, length, slice_index, IfOk, IfErr, IsErr, IsErrOf, OnOk, OnErr};
    ghost use Rattle.lb_book.specs.Desks.{holds, pair_of, without_last};
    ghost use Rattle.lb_shared.specs.Histories.{DeskMaySee, DeskSees, LooksAt, MayCut, gained_in};
    ghost use Rattle.lb_shared.specs.Holds.{IsAdminMark, IsRoomMark, cut_in};
    ghost use Rattle.lb_shared.specs.Locks.{lock_of};
    ghost use Rattle.lb_shared.specs.SharedDesks.{CutsFor, IsStrayOf, IsViewOf, MayCall};
    ghost use Rattle.lb_shared.specs.Shelves.{for_return};
    ghost use Rattle.lb_shared.specs.Stakes.{KeepsInCall, KeepsStake, StakeChooses, StakeCommands, StakeDenies, StakeRefuses, StakeTakesBack};

    /// A stake with a part of both ledgers that counts nothing.
    pub(crate) fn new(
        alloc: Global,
        site: &'s SharedSite<'r, L, R>,
        share: DeskShare<L>,
    ) -> Stake<'s, 'r, L, R>
        requires part { 0 < share.parts }
        requires amount { share.amount ≡ 0 }
        ensures empty { (result.receipts ≡ []) × (result.held ≡ []) × (result.forgotten ≡ 0) }
        ensures share { (result.parts ≡ share.parts) × (result.amount ≡ 0) }
        ensures seat { (result.seat.seen ≡ []) × (result.seat.lock ≡ lock_of site.now) }
        ensures steps { (result.seat.steps ≡ []) × (result.seat.starts ≡ L.starts) }
    {
        let (share, cuts) = share.into_shares();
        Stake {
            site,
            account: Account {
                share,
                cuts,
                receipts: Vec::new(alloc),
            },
            forgotten: 0,
            held: Vec::new(alloc),
            seat: site.lock.seat(),
        }
    }

    /// Drops the receipts. The room for those of the Returns to come stays.
    pub(crate) fn forget(&mut self)
        ensures { self.new ≡ record self.old { receipts = []; forgotten = self.old.forgotten + length self.old.receipts } }
    {
        self.forgotten += self.account.receipts.len() as u64;
        self.account.clear();
    }

    /// How many receipts there are.
    pub(crate) fn count(&self) -> usize
        ensures { result ≡ length self.now.receipts }
    {
        self.account.receipts.len()
    }

    /// The number of kept entries at which the Site cuts a journal; 0 is never.
    pub(crate) fn cut_at(&self) -> u32
        ensures { result ≡ L.cut_at }
    {
        self.site.cut_at.get()
    }

    /// A hold that cuts the journal if due, does a Maintain if due, and then a Select. The room is taken before it: for both
    /// receipts, for that of the ticket's Return, and for the ticket. The shelf has admitted just what such a hold may add.
    pub(crate) fn choose(
        &mut self,
        on: Occasion,
        ask: &Ask,
        admission: &Admission,
    ) -> Cut<L, Result<Choice<SiteLease<L>>, RoomError<SiteMark<L>>>>
    where
        R: Wait,
        requires call { MayCall L.sizes on.lb admission.now }
        ensures ok { IfOk result.1 (StakeChooses L.sizes self.old self.new on ask.now) }
        ensures err { IfErr result.1 (StakeDenies L.sizes self.old self.new on) }
        ensures held { OnErr result.1 (self.new.held ≡ self.old.held) }
        ensures mark { IfErr result.1 (IsRoomMark on.lb 2) }
        ensures cuts { CutsFor L.sizes L.cut_at on.lb result.0 self.old.receipts self.new.receipts (IsErrOf result.1 RoomError.NoMemory) }
        ensures sees { DeskMaySee L.starts self.old.seat self.new.seat (gained_in self.old.receipts self.new.receipts) (IsErrOf result.1 RoomError.NoMemory) }
        ensures kept { KeepsInCall self.old self.new result.0 }
    {
        match take_room(&mut self.account, &mut self.held) {
            Ok(()) => {}
            Err(NoMemory) => return (None, Err(RoomError::NoMemory)),
        }
        self.site.lock.enter(self.site.rt, &mut self.seat);
        let done = match self.seat.slot_mut(&self.site.lock.table.shared, 0) {
            Some(locked) => locked.choose(on, ask, &mut self.account),
            None => unreachable!(),
        };
        self.site.lock.leave(&mut self.seat);
        hold_pair(&mut self.held, on.lb, &done.1);
        done
    }

    /// A hold that cuts the journal if due, does a Maintain if due, and then a command. The room for the receipts is taken before it.
    pub(crate) fn command(
        &mut self,
        on: Occasion,
        command: &Command,
        admission: &Admission,
    ) -> Cut<L, Result<(), AdminError<SiteMark<L>>>>
    where
        R: Wait,
        requires call { MayCall L.sizes on.lb admission.now }
        ensures ok { OnOk result.1 (StakeCommands L.sizes self.old self.new on command.now) }
        ensures err { IfErr result.1 (StakeRefuses L.sizes self.old self.new on command.now) }
        ensures held { self.new.held ≡ self.old.held }
        ensures mark { IfErr result.1 (IsAdminMark on.lb) }
        ensures cuts { CutsFor L.sizes L.cut_at on.lb result.0 self.old.receipts self.new.receipts (IsErrOf result.1 AdminError.NoMemory) }
        ensures sees { DeskMaySee L.starts self.old.seat self.new.seat (gained_in self.old.receipts self.new.receipts) (IsErrOf result.1 AdminError.NoMemory) }
        ensures kept { KeepsInCall self.old self.new result.0 }
    {
        match self.account.reserve(self.held.len() + 2) {
            Ok(()) => {}
            Err(_) => return (None, Err(AdminError::NoMemory)),
        }
        self.site.lock.enter(self.site.rt, &mut self.seat);
        let done = match self.seat.slot_mut(&self.site.lock.table.shared, 0) {
            Some(locked) => locked.command(on, command, &mut self.account),
            None => unreachable!(),
        };
        self.site.lock.leave(&mut self.seat);
        done
    }

    /// A hold that cuts the journal if due, and takes a lease back. It isn't refused for want of memory.
    pub(crate) fn give_back(&mut self, back: HandedBack<L>, admission: &Admission) -> CutBack<L>
    where
        R: Wait,
        requires admitted { admission.now ≡ for_return back.lease.lb }
        requires held { holds self.old.held (pair_of back.lease) ≡ true }
        ensures ok { OnOk result.1 (StakeTakesBack L.sizes self.old self.new back) }
        ensures amount { OnOk result.1 (self.new.amount ≡ self.old.amount + 1) }
        ensures err { OnErr result.1 ((self.new.receipts ≡ self.old.receipts) × (self.new.amount ≡ self.old.amount)) }
        ensures stray { IfErr result.1 (IsStrayOf L.sizes back.lease) }
        ensures held { self.new.held ≡ without_last self.old.held (pair_of back.lease) }
        ensures cuts { CutsFor L.sizes L.cut_at back.lease.lb (cut_in result.0) self.old.receipts self.new.receipts (IsErr result.0) }
        ensures sees { DeskSees L.starts self.old.seat self.new.seat (gained_in self.old.receipts self.new.receipts) }
        ensures marks { MayCut self.old.seat self.new.seat (cut_in result.0) }
        ensures one { length self.new.receipts ≤ length self.old.receipts + 1 }
        ensures kept { KeepsStake self.old self.new }
    {
        let (lb, ticket) = (back.lease.lb(), back.lease.ticket());
        self.site.lock.enter(self.site.rt, &mut self.seat);
        let done = match self.seat.slot_mut(&self.site.lock.table.shared, 0) {
            Some(locked) => locked.give_back(back, &mut self.account),
            None => unreachable!(),
        };
        self.site.lock.leave(&mut self.seat);
        take_last(&mut self.held, (lb, ticket));
        done
    }

    /// A hold that looks at a balancer.
    pub(crate) fn look(&mut self, lb: u32) -> Result<SiteView<L>, NoMemory>
    where
        R: Wait,
        requires known { lb < length L.sizes }
        ensures ok { IfOk result (IsViewOf L.sizes lb) }
        ensures next { IfOk result (λ v. length L.sizes ≡ 1 → slice_index L.firsts lb + self.old.amount ≤ v.view.next) }
        ensures looks { LooksAt L.starts self.old.seat self.new.seat lb result }
        ensures same { self.new ≡ record self.old { seat = self.new.seat } }
    {
        self.site.lock.enter(self.site.rt, &mut self.seat);
        let done = match self.seat.slot_mut(&self.site.lock.table.shared, 0) {
            Some(locked) => locked.look(lb, &mut self.account.share),
            None => unreachable!(),
        };
        self.site.lock.leave(&mut self.seat);
        done
    }
}

// The room for the receipts of a choosing hold and of the Returns to come, and for a ticket.
fn take_room<L: SiteName>(
    account: &mut Account<L>,
    held: &mut Vec<(u32, u64)>,
) -> Result<(), NoMemory>
    ensures receipts { account.new.receipts.items ≡ account.old.receipts.items }
    ensures share { (account.new.share ≡ account.old.share) × (account.new.cuts ≡ account.old.cuts) }
    ensures held { held.new.items ≡ held.old.items }
    ensures room { OnOk result (vec_len account.old.receipts + vec_len held.old + 3 ≤ vec_capacity account.new.receipts) }
    ensures one { OnOk result (vec_len held.old < vec_capacity held.new) }
    ensures no_less { vec_capacity account.old.receipts ≤ vec_capacity account.new.receipts }
{
    account.reserve(held.len() + 3)?;
    held.reserve(1)?;
    Ok(())
}

// Notes the ticket of a choice, where there is one.
fn hold_pair<L>(
    held: &mut Vec<(u32, u64)>,
    lb: u32,
    done: &Result<Choice<SiteLease<L>>, RoomError<SiteMark<L>>>,
)
    requires { vec_len held.old < vec_capacity held.old }
    ensures ok { IfOk done.now (λ c. held.new.items ≡ held.old.items ++ pairs_of lb c) }
    ensures err { OnErr done.now (held.new.items ≡ held.old.items) }
{
    if let Ok(Choice::Chosen { lease, .. }) = done {
        held.push((lb, lease.ticket())).unwrap();
    }
}

// Whether two pairs are the same.
fn is_pair(a: (u32, u64), b: (u32, u64)) -> bool
    ensures { result ≡ is_pair a b }
{
    a.0 == b.0 && a.1 == b.1
}

// Takes out the last copy of this pair, if there is one.
fn take_last(held: &mut Vec<(u32, u64)>, pair: (u32, u64))
    ensures held { held.new.items ≡ without_last held.old.items pair }
    ensures room { vec_capacity held.old ≤ vec_capacity held.new }
{
    match last_place(held.as_slice(), pair) {
        Some(place) => {
            held.remove(place);
        }
        None => {}
    }
}

// The place of the last copy of this pair.
fn last_place(held: &[(u32, u64)], pair: (u32, u64)) -> Option<usize>
    ensures { IsLastPlace held.now pair result }
{
    for back in 0..held.len() {
        let place = held.len() - 1 - back;
        if is_pair(pair, held[place]) {
            return Some(place);
        }
    }
    None
}
