//! The shares of both ledgers, the receipts, shelves and seats of all desks of a Site, brought together.
ghost use Rattle.std.specs.Prelude.{◌≡◌, ◌+◌, ◌<◌, ◌≤◌, ◌↔◌, ◌++◌, [], ◌∷◌, false, length, map, sum_by, IfOk, OnOk, vec_len, vec_capacity};
ghost use Rattle.std.specs.List.{All, flat_map};
ghost use Rattle.lb_closing.specs.Closings.{noted};

use crate::compare::Noted;
use jk_io::{ListOf, NoMemory};
use lb_shared::{CutLedger, Leaving, LeftSeat, SiteName, SiteReceiptList};
use std::alloc::Global;
use std::sync::ledger::Share;

/// What desks left, in order.
pub type LeavingList<L, S> = ListOf<Leaving<L, S>>;

/// Shelves, in order.
pub type ShelfList<S> = ListOf<S>;

/// The shares of each ledger as one, the entries of the receipts, the shelves and the seats in order, and whether a desk forgot a receipt.
#[derive(Drop)]
pub(crate) struct Gathered<L: SiteName, S> {
    pub(crate) share: Share<L>,
    pub(crate) cuts: Share<CutLedger<L>>,
    pub(crate) noted: Vec<Noted>,
    pub(crate) shelves: Vec<S>,
    pub(crate) seats: Vec<LeftSeat<L>>,
    pub(crate) forgot: bool,
    pub(crate) ghost even: { cuts.parts ≡ share.parts },
}

/// Puts together all that desks left.
pub(crate) fn gather<L: SiteName, S: Drop>(
    leaving: LeavingList<L, S>,
) -> Result<Gathered<L, S>, NoMemory>
    requires some { 0 < length leaving }
    ensures parts { IfOk result (λ g. g.share.parts ≡ sum_by (λ l. l.share.parts) leaving) }
    ensures amount { IfOk result (λ g. g.share.amount ≡ sum_by (λ l. l.share.amount) leaving) }
    ensures cuts { IfOk result (λ g. g.cuts.amount ≡ sum_by (λ l. l.cuts.amount) leaving) }
    ensures noted { IfOk result (λ g. g.noted.items ≡ noted (flat_map (λ l. l.receipts) leaving)) }
    ensures shelves { IfOk result (λ g. g.shelves.items ≡ map (λ l. l.shelf) leaving) }
    ensures seats { IfOk result (λ g. g.seats.items ≡ map (λ l. l.seat) leaving) }
    ensures forgot { IfOk result (λ g. (g.forgot ≡ false) ↔ All (λ l. l.forgotten ≡ 0) leaving) }
{
    let alloc = leaving.allocator();
    let (first, others) = split_first(leaving);
    let mut all = begin(alloc, first, others.len())?;
    take_all(&mut all, others)?;
    Ok(all)
}

// What the first desk left, and what the others did.
fn split_first<L: SiteName, S: Drop>(
    leaving: LeavingList<L, S>,
) -> (Leaving<L, S>, Vec<Leaving<L, S>>)
    requires { 0 < length leaving }
    ensures { leaving ≡ result.0 ∷ result.1.items }
{
    let mut leaving = leaving.into_vec();
    let first = leaving.remove(0);
    (first, leaving)
}

// Takes what desks left, in order.
fn take_all<L: SiteName, S: Drop>(
    all: &mut Gathered<L, S>,
    leaving: Vec<Leaving<L, S>>,
) -> Result<(), NoMemory>
    requires room { vec_len all.old.shelves + vec_len leaving ≤ vec_capacity all.old.shelves }
    requires for_seats { vec_len all.old.seats + vec_len leaving ≤ vec_capacity all.old.seats }
    ensures parts { OnOk result (all.new.share.parts ≡ all.old.share.parts + sum_by (λ l. l.share.parts) leaving.items) }
    ensures amount { OnOk result (all.new.share.amount ≡ all.old.share.amount + sum_by (λ l. l.share.amount) leaving.items) }
    ensures cuts { OnOk result (all.new.cuts.amount ≡ all.old.cuts.amount + sum_by (λ l. l.cuts.amount) leaving.items) }
    ensures noted { OnOk result (all.new.noted.items ≡ all.old.noted.items ++ noted (flat_map (λ l. l.receipts) leaving.items)) }
    ensures shelves { OnOk result (all.new.shelves.items ≡ all.old.shelves.items ++ map (λ l. l.shelf) leaving.items) }
    ensures seats { OnOk result (all.new.seats.items ≡ all.old.seats.items ++ map (λ l. l.seat) leaving.items) }
    ensures forgot { OnOk result ((all.new.forgot ≡ false) ↔ ((all.old.forgot ≡ false) × All (λ l. l.forgotten ≡ 0) leaving.items)) }
{
    for left in leaving {
        take(all, left)?;
    }
    Ok(())
}

// Takes what the first desk left, and the room for `more` shelves and seats.
fn begin<L: SiteName, S: Drop>(
    alloc: Global,
    first: Leaving<L, S>,
    more: usize,
) -> Result<Gathered<L, S>, NoMemory>
    ensures parts { IfOk result (λ all. all.share.parts ≡ first.share.parts) }
    ensures amount { IfOk result (λ all. all.share.amount ≡ first.share.amount) }
    ensures cuts { IfOk result (λ all. all.cuts.amount ≡ first.cuts.amount) }
    ensures noted { IfOk result (λ all. all.noted.items ≡ noted first.receipts) }
    ensures shelves { IfOk result (λ all. all.shelves.items ≡ first.shelf ∷ []) }
    ensures seats { IfOk result (λ all. all.seats.items ≡ first.seat ∷ []) }
    ensures room { IfOk result (λ all. vec_len all.shelves + more ≤ vec_capacity all.shelves) }
    ensures for_seats { IfOk result (λ all. vec_len all.seats + more ≤ vec_capacity all.seats) }
    ensures forgot { IfOk result (λ all. (all.forgot ≡ false) ↔ (first.forgotten ≡ 0)) }
{
    let Leaving {
        share,
        receipts,
        forgotten,
        shelf,
        seat,
        cuts,
    } = first;
    let mut list = Vec::new(alloc);
    note_all(&mut list, receipts)?;
    let shelves = list_with(alloc, shelf, more)?;
    let seats = list_with(alloc, seat, more)?;
    Ok(Gathered {
        share,
        cuts,
        noted: list,
        shelves,
        seats,
        forgot: forgotten != 0,
    })
}

// A list of one item, with room for `more`.
fn list_with<T: Drop>(alloc: Global, item: T, more: usize) -> Result<Vec<T>, NoMemory>
    ensures items { IfOk result (λ list. list.items ≡ item ∷ []) }
    ensures room { IfOk result (λ list. vec_len list + more ≤ vec_capacity list) }
{
    let mut list = Vec::new(alloc);
    list.push(item)?;
    list.reserve(more)?;
    Ok(list)
}

// Takes what one desk left.
fn take<L: SiteName, S: Drop>(all: &mut Gathered<L, S>, left: Leaving<L, S>) -> Result<(), NoMemory>
    requires room { vec_len all.old.shelves < vec_capacity all.old.shelves }
    requires for_seats { vec_len all.old.seats < vec_capacity all.old.seats }
    ensures parts { all.new.share.parts ≡ all.old.share.parts + left.share.parts }
    ensures amount { all.new.share.amount ≡ all.old.share.amount + left.share.amount }
    ensures cuts { all.new.cuts.amount ≡ all.old.cuts.amount + left.cuts.amount }
    ensures noted { OnOk result (all.new.noted.items ≡ all.old.noted.items ++ noted left.receipts) }
    ensures shelves { OnOk result (all.new.shelves.items ≡ all.old.shelves.items ++ left.shelf ∷ []) }
    ensures seats { OnOk result (all.new.seats.items ≡ all.old.seats.items ++ left.seat ∷ []) }
    ensures room { vec_capacity all.old.shelves ≤ vec_capacity all.new.shelves }
    ensures for_seats { vec_capacity all.old.seats ≤ vec_capacity all.new.seats }
    ensures forgot { (all.new.forgot ≡ false) ↔ ((all.old.forgot ≡ false) × (left.forgotten ≡ 0)) }
{
    let Leaving {
        share,
        receipts,
        forgotten,
        shelf,
        seat,
        cuts,
    } = left;
    all.share.merge(share);
    all.cuts.merge(cuts);
    all.forgot = all.forgot || forgotten != 0;
    note_all(&mut all.noted, receipts)?;
    all.shelves.push(shelf).unwrap();
    all.seats.push(seat).unwrap();
    Ok(())
}

fn note_all<L>(list: &mut Vec<Noted>, receipts: SiteReceiptList<L>) -> Result<(), NoMemory>
    ensures { OnOk result (list.new.items ≡ list.old.items ++ noted receipts) }
{
    for receipt in receipts.as_slice() {
        let receipt = receipt.receipt();
        list.push((receipt.lb, receipt.entry))?;
    }
    Ok(())
}
