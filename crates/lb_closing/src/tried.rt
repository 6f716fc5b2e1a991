//! A first caller: a Site of one balancer, asked from two threads, and closed.
ghost use Rattle.std.specs.Prelude.{◌≡◌, ◌<◌, [], ◌∷◌, length, sum_by, Some, IfOk};
ghost use Rattle.std.specs.List.{All};
ghost use Rattle.lb_book.specs.PlainDesks.{AreModern};
ghost use Rattle.lb_book.specs.ToldBooks.{sizes_of};
ghost use Rattle.lb_shared.specs.Histories.{starts_of};
ghost use Rattle.lb_shared.specs.Sites.{IsBlankOf, added_in, nexts_of};
ghost use Rattle.lb_model.specs.declared.segment.TheConstants.{MODERN_RULES};

use crate::close::{CloseError, Closed, close_desks};
use crate::gather::LeavingList;
use jk_io::{NoMemory, NumberList};
use lb_book::desk::Choice;
use lb_book::{Book, BookList, Desk};
use lb_model::{Ask, Kind, Outcome};
use lb_shared::{
    DeskShare, KeptList, Leaving, MemShelf, SharedDesk, SharedSite, Site, SiteBlank, SiteName,
};
use std::alloc::Global;
use std::marker::Brand;
use std::sync::Wait;
use std::thread;
use std::thread::Threads;

const DONE: Outcome = Outcome {
    kind: Kind::Done,
    bytes: 0,
};

/// Two threads ask a Book of rules 2 for a member, and hand it back; then their desks are closed.
pub fn try_a_site<R: Threads + Wait + Sync>(
    rt: &R,
    alloc: Global,
    book: Book,
    ask: &Ask,
) -> Result<Closed<MemShelf>, CloseError<Brand>>
    requires modern { book.rules ≡ MODERN_RULES }
    requires fresh { (book.added ≡ 0) × (book.entries ≡ []) }
    ensures entries { IfOk result (λ c. c.entries ≡ added_in c.books) }
{
    let books = one_book(alloc, book)?;
    in_site::<Brand, R>(rt, alloc, SiteBlank::new(2), books, ask)
}

fn one_book(alloc: Global, book: Book) -> Result<BookList, NoMemory>
    ensures { IfOk result (λ books. books ≡ book ∷ []) }
{
    let mut books = BookList::new(alloc);
    books.push(book)?;
    Ok(books)
}

// As `try_a_site`, over the Site with this name.
fn in_site<L: SiteName + Send + Sync, R: Threads + Wait + Sync>(
    rt: &R,
    alloc: Global,
    blank: SiteBlank,
    books: BookList,
    ask: &Ask,
) -> Result<Closed<MemShelf>, CloseError<L>>
    requires name { IsBlankOf L.name L.cuts_name L.parts blank }
    requires two { L.parts ≡ 2 }
    requires sizes { sizes_of books ≡ L.sizes }
    requires firsts { nexts_of books ≡ L.firsts }
    requires uncut { 0 ≡ L.cut_at }
    requires one { length books ≡ 1 }
    requires modern { AreModern books }
    requires fresh { All (λ b. b.added ≡ 0) books }
    requires starts { starts_of books ≡ L.starts }
    requires empty { All (λ b. (b.entries ≡ []) × (b.added ≡ 0)) books }
    ensures entries { IfOk result (λ c. c.entries ≡ added_in c.books) }
{
    let SiteBlank { entries, cuts } = blank;
    let (site, share) = Site::<L>::open(entries, books);
    let (shared, share) = SharedSite::new(rt, alloc, site, share, cuts, 0)?;
    let leaving = both_ask(rt, alloc, &shared, share, ask)?;
    close_desks(shared, leaving)
}

// Two desks, each on a thread of its own.
fn both_ask<'s, 'r, L: SiteName + Send + Sync, R: Threads + Wait + Sync>(
    rt: &'r R,
    alloc: Global,
    shared: &'s SharedSite<'r, L, R>,
    share: DeskShare<L>,
    ask: &Ask,
) -> Result<LeavingList<L, MemShelf>, NoMemory>
    requires parts { share.parts ≡ 2 }
    requires amount { share.amount ≡ 0 }
    requires known { 0 < length L.sizes }
    ensures parts { IfOk result (λ left. sum_by (λ l. l.share.parts) left ≡ 2) }
    ensures two { IfOk result (λ left. length left ≡ 2) }
{
    let mut leaving = Vec::with_capacity(alloc, 2)?;
    let mut share = share;
    let other = share.split_off(1);
    let first = SharedDesk::new(alloc, shared, share, shelf(alloc));
    let second = SharedDesk::new(alloc, shared, other, shelf(alloc));
    let (left, right) = thread::join(
        rt,
        move || ask_once(first, ask),
        move || ask_once(second, ask),
    );
    leaving.push(left).unwrap();
    leaving.push(right).unwrap();
    Ok(LeavingList::from_vec(leaving))
}

fn shelf(alloc: Global) -> MemShelf {
    MemShelf::new(KeptList::new(alloc), NumberList::new(alloc))
}

// Asks once, hands the lease back, and leaves.
fn ask_once<'s, 'r, L: SiteName, R: Wait>(
    desk: SharedDesk<'s, 'r, L, MemShelf, R>,
    ask: &Ask,
) -> Leaving<L, MemShelf>
    requires known { 0 < length L.sizes }
    requires none_held { desk.desk.held ≡ [] }
    ensures parts { desk.entry.desk.parts ≡ Some result.share.parts }
{
    let mut desk = desk;
    match desk.choose(0, 0, 0, ask) {
        Ok(Choice::Chosen { member: _, lease }) => {
            let _back = desk.hand_back(0, 0, lease, DONE);
        }
        Ok(Choice::NoMember | Choice::Forced) => {}
        Err(_) => {}
    }
    desk.leave()
}
