//! The end of a run: desks that left, and the Site that they asked.
ghost use Rattle.std.specs.Prelude.{◌≡◌, ℕ, ◌<◌, ◌≤◌, List, false, length, map, sum_by, IfErr, IfOk, OnOk};
ghost use Rattle.std.specs.List.{All, flat_map};
ghost use Rattle.std.specs.List.Sorted.{IsPermutation};
ghost use Rattle.lb_model.specs.declared.journal.Entry.{Entry};
ghost use Rattle.lb_shared.specs.Histories.{IsClosed, IsClosedAfter, IsSiteHistory};
ghost use Rattle.lb_shared.specs.Locks.{lock_of};
ghost use Rattle.lb_shared.specs.Sites.{AreSited, added_in};
ghost use Rattle.lb_closing.specs.CloseErrors.{IsCloseError};
ghost use Rattle.lb_closing.specs.Closings.{AreUncut, IsDiscord, LeftDiffers, kept_from, noted};
ghost use Rattle.lb_closing.specs.OneHistory.{DiffersAfter, IsOneHistory, LeftDiffersWhole};
ghost use Rattle.lb_model.specs.declared.config.TheConstants.{MAX_BALANCERS};

use crate::compare::{Noted, first_difference, put_in_order};
use crate::discord::Discord;
use crate::gather::{Gathered, LeavingList, ShelfList, gather};
use crate::kept::{added_by, are_uncut, kept_in};
use jk_io::NoMemory;
use lb_book::{Book, BookList};
use lb_shared::{CutLedger, LeftSeatList, SharedSite, SiteName};
use std::alloc::AllocError;
use std::sync::Wait;
use std::sync::ledger::Share;
use thiserror::Error;

/// What is left once the desks are closed.
#[derive(Drop)]
pub struct Closed<S> {
    pub books: BookList,
    /// How many entries the Books added since the Site was opened.
    pub entries: u64,
    pub shelves: ShelfList<S>,
    pub ghost every: { entries ≡ added_in books },
}

/// Why the desks can't be closed.
#[derive(Debug, Drop, Error)]
pub enum CloseError<L> {
    /// The receipts aren't the entries that the Books keep.
    #[error("a receipt and an entry differ")]
    Differs(Discord<L>),
    #[error("out of memory")]
    NoMemory,
}

impl<L> From<NoMemory> for CloseError<L> {
    ghost use Rattle.std.specs.Prelude.{◌≡◌};
    ghost use Rattle.lb_closing.specs.declared.close.CloseError.TheVariants as Close;

    ghost from_gives = { λ _ e. e ≡ Close.NoMemory };

    fn from(_error: NoMemory) -> CloseError<L> {
        CloseError::NoMemory
    }
}

impl<L> From<AllocError> for CloseError<L> {
    ghost use Rattle.std.specs.Prelude.{◌≡◌};
    ghost use Rattle.lb_closing.specs.declared.close.CloseError.TheVariants as Close;

    ghost from_gives = { λ _ e. e ≡ Close.NoMemory };

    fn from(_error: AllocError) -> CloseError<L> {
        CloseError::NoMemory
    }
}

/// Takes a Site out of its lock, once its desks have left, and gives the Books back. Where no desk forgot a receipt and
/// no journal was cut, the receipts must be the kept entries.
pub fn close_desks<'r, L: SiteName, S: Drop, R: Wait>(
    site: SharedSite<'r, L, R>,
    leaving: LeavingList<L, S>,
) -> Result<Closed<S>, CloseError<L>>
    requires some { 0 < length leaving }
    requires whole { sum_by (λ l. l.share.parts) leaving ≡ L.parts }
    ensures sited { IfOk result (λ c. AreSited L.sizes L.firsts c.books) }

    // There is one history of the Site, from its openings on, that says what each Book is: the entries of all holds, in their
    // order, each with the desk that added it.
    ensures history { IfOk result (λ c. (log : List (ℕ × (ℕ × Entry))) × IsSiteHistory L.starts log c.books) }
    ensures entries { IfOk result (λ c. c.entries ≡ added_in c.books) }
    ensures counted { IfOk result (λ c. c.entries ≡ sum_by (λ l. l.share.amount) leaving) }
    ensures shelves { IfOk result (λ c. c.shelves ≡ map (λ l. l.shelf) leaving) }

    // Where no desk forgot and no Book was cut, the kept entries are the receipts, each once.
    ensures once { IfOk result (λ c. All (λ l. l.forgotten ≡ 0) leaving → AreUncut c.books
        → IsPermutation (noted (flat_map (λ l. l.receipts) leaving)) (kept_from 0 c.books)) }

    // A discord comes only there, and tells the first number at which they differ.
    ensures all { IfErr result (IsCloseError (λ d. All (λ l. l.forgotten ≡ 0) leaving)) }
    ensures differs { IfErr result (IsCloseError (LeftDiffers L.sizes L.firsts leaving)) }
{
    let alloc = leaving.allocator();
    let mut all = gather(leaving)?;
    all.seats = Vec::new(alloc);
    close_gathered(site, all)
}

/// As `close_desks`, of desks that were at this Site's lock.
pub fn close_own_desks<'r, L: SiteName, S: Drop, R: Wait>(
    site: SharedSite<'r, L, R>,
    leaving: LeavingList<L, S>,
) -> Result<Closed<S>, CloseError<L>>
    requires some { 0 < length leaving }
    requires whole { sum_by (λ l. l.share.parts) leaving ≡ L.parts }
    requires here { All (λ l. l.seat.lock ≡ lock_of site) leaving }
    ensures sited { IfOk result (λ c. AreSited L.sizes L.firsts c.books) }

    // Of each desk the one history has just the entries and the cuts that the desk has seen as its own, and none of anybody else.
    ensures history { IfOk result (λ c. IsClosed L.starts (map (λ l. l.seat) leaving) c.books) }
    ensures whole { IfOk result (λ c. IsOneHistory L.starts (map (λ l. l.seat) leaving) c.books) }
    ensures counted { IfOk result (λ c. c.entries ≡ sum_by (λ l. l.share.amount) leaving) }
    ensures shelves { IfOk result (λ c. c.shelves ≡ map (λ l. l.shelf) leaving) }

    // So it is of the Books with which the receipts are in discord.
    ensures differs { IfErr result (IsCloseError (LeftDiffersWhole L.starts L.sizes L.firsts leaving)) }
{
    close_gathered(site, gather(leaving)?)
}

// Takes the lock away, and compares what the desks left with what the Books keep.
fn close_gathered<'r, L: SiteName, S: Drop, R: Wait>(
    site: SharedSite<'r, L, R>,
    all: Gathered<L, S>,
) -> Result<Closed<S>, CloseError<L>>
    requires whole { all.share.parts ≡ L.parts }
    requires here { All (λ s. s.lock ≡ lock_of site) all.seats.items }
    ensures sited { IfOk result (λ c. AreSited L.sizes L.firsts c.books) }
    ensures history { IfOk result (λ c. IsClosedAfter L.starts all.seats.items all.cuts.amount c.books) }
    ensures counted { IfOk result (λ c. c.entries ≡ all.share.amount) }
    ensures shelves { IfOk result (λ c. c.shelves ≡ all.shelves.items) }
    ensures once { IfOk result (λ c. all.forgot ≡ false → AreUncut c.books → IsPermutation all.noted.items (kept_from 0 c.books)) }
    ensures differs { IfErr result (IsCloseError (DiffersAfter L.starts all.seats.items all.cuts.amount
        L.sizes L.firsts all.share.amount all.noted.items all.forgot)) }
{
    let Gathered {
        share,
        cuts,
        noted: list,
        shelves,
        seats,
        forgot,
    } = all;
    let (books, entries) = end_site(site, share, cuts, LeftSeatList::from_vec(seats));
    compare(forgot, list, books.as_slice())?;
    Ok(Closed {
        books,
        entries,
        shelves: ShelfList::from_vec(shelves),
    })
}

// Takes the lock away, and counts the entries.
fn end_site<'r, L: SiteName, R: Wait>(
    site: SharedSite<'r, L, R>,
    share: Share<L>,
    cuts: Share<CutLedger<L>>,
    seats: LeftSeatList<L>,
) -> (BookList, u64)
    requires whole { (share.parts ≡ L.parts) × (cuts.parts ≡ L.parts) }
    requires here { All (λ s. s.lock ≡ lock_of site) seats }
    ensures sited { AreSited L.sizes L.firsts result.0 }
    ensures history { IsClosedAfter L.starts seats cuts.amount result.0 }
    ensures amount { share.amount ≡ added_in result.0 }
    ensures entries { result.1 ≡ added_in result.0 }
{
    let mut site = site.into_site(seats, cuts);
    let mut share = share;
    site.audit(&mut share);
    let books = site.close(share);
    let entries = added_by(books.as_slice());
    (books, entries)
}

// Compares receipts and kept entries, where all are there.
fn compare<L>(forgot: bool, list: Vec<Noted>, books: &[Book]) -> Result<(), CloseError<L>>
    requires few { length books.now ≤ MAX_BALANCERS }
    ensures once { OnOk result (forgot ≡ false → AreUncut books.now → IsPermutation list.items (kept_from 0 books.now)) }
    ensures differs { IfErr result (IsCloseError (λ d.
        (forgot ≡ false) × AreUncut books.now × IsDiscord list.items (kept_from 0 books.now) d)) }
{
    if forgot {
        return Ok(());
    }
    if are_uncut(books) {
        compare_all(list, books)
    } else {
        Ok(())
    }
}

// Compares the receipts in their order with the kept entries.
fn compare_all<L>(list: Vec<Noted>, books: &[Book]) -> Result<(), CloseError<L>>
    requires few { length books.now ≤ MAX_BALANCERS }
    ensures once { OnOk result (IsPermutation list.items (kept_from 0 books.now)) }
    ensures differs { IfErr result (IsCloseError (IsDiscord list.items (kept_from 0 books.now))) }
{
    let mut list = list;
    put_in_order(&mut list)?;
    let kept = kept_in(*list.allocator(), books)?;
    match first_difference(list.as_slice(), kept.as_slice()) {
        Some(discord) => Err(CloseError::Differs(discord)),
        None => Ok(()),
    }
}
