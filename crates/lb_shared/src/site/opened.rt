//! A Site's begin and end, and what is looked at between them.
ghost use Rattle.lb_book.specs.PlainDesks.{AreLegal};

use super::{Site, SiteName, SiteView};
use jk_io::NoMemory;
use lb_book::{Book, BookList};
use std::marker::PhantomData;
use std::sync::ledger::{Blank, Share};

impl<L: SiteName> Site<L> {
    ghost use Rattle.std.specs.Prelude.{◌≡◌, ◌<◌, ◌≤◌, length, IfOk};
    ghost use Rattle.std.specs.List.{All};
    ghost use Rattle.lb_model.specs.Present.{IsPresent};
    ghost use Rattle.lb_book.specs.Bounds.{ChoseWell, IsBounded};
    ghost use Rattle.lb_book.specs.Journal.{IsSound, next_number, past_of};
    ghost use Rattle.lb_book.specs.PlainDesks.{AreModern};
    ghost use Rattle.lb_book.specs.ToldBooks.{sizes_of};
    ghost use Rattle.lb_book.specs.Weights.{AreLevel, IsEvenEpoch};
    ghost use Rattle.lb_shared.specs.Sites.{AreSited, At, added_in, nexts_of};
    ghost use Rattle.lb_model.specs.declared.config.TheConstants.{MAX_BALANCERS};
    ghost use Rattle.lb_shared.specs.declared.site.TheConstants.{MOST_ENTRIES};

    /// Puts Books that have added no entry under the ledger of a blank. The share has all its parts. It takes no memory.
    pub fn open(blank: Blank, books: BookList) -> (Site<L>, Share<L>)
        requires name { blank.name ≡ L.name }
        requires parts { blank.parts ≡ L.parts }
        requires sizes { sizes_of books ≡ L.sizes }
        requires firsts { nexts_of books ≡ L.firsts }
        requires few { length books ≤ MAX_BALANCERS }
        requires modern { AreModern books }
        requires fresh { All (λ b. b.added ≡ 0) books }
        ensures books { result.0 ≡ books }
        ensures parts { result.1.parts ≡ L.parts }
        ensures amount { result.1.amount ≡ 0 }
    {
        let (total, share) = blank.open::<L>();
        let books = books.into_vec();
        vouch(books.as_slice());
        (Site { books, total }, share)
    }

    /// How many Books there are. What is fixed of them is known of every Site with this name.
    pub fn count(&self) -> usize
        ensures value { result ≡ length self.now }
        ensures named { AreSited L.sizes L.firsts self.now }
    {
        self.books.len()
    }

    /// Tells that a share counts no more entries than were added, a whole share all of them, and that these are few.
    pub fn audit(&mut self, share: &mut Share<L>)
        ensures within { share.old.amount ≤ added_in self.old }
        ensures few { added_in self.old ≤ MOST_ENTRIES }
        ensures named { AreSited L.sizes L.firsts self.new }
        ensures whole { share.old.parts ≡ L.parts → share.old.amount ≡ added_in self.old }
        ensures same { self.new ≡ self.old }
        ensures amount { share.new.amount ≡ share.old.amount }
        ensures parts { share.new.parts ≡ share.old.parts }
    {
        self.total.audit(share);
    }

    /// The balancer as it is now.
    pub fn view(&self, lb: u32) -> Result<SiteView<L>, NoMemory>
        requires lb { lb < length self.now }
        ensures lb { IfOk result (λ v. v.lb ≡ lb) }
        ensures present { IfOk result (λ v. At self.now lb (λ b. IsPresent b.rules b.opening (past_of b) v.view)) }
        ensures sound { At self.now lb IsSound }

        // What each view of a Book says: pools, trials, the states in which members were chosen, and how level loads are.
        ensures bounded { IfOk result (λ v. At self.now lb (λ b. IsBounded b v.view)) }
        ensures choices { At self.now lb ChoseWell }
        ensures weights { IfOk result (λ v. At self.now lb (λ b. IsEvenEpoch b.rules b.opening (past_of b) → AreLevel b v.view)) }
    {
        let view = self.books[lb as usize].view()?;
        Ok(SiteView {
            lb,
            view,
            of: PhantomData,
        })
    }

    /// How many entries of the balancer are kept.
    pub fn kept(&self, lb: u32) -> u64
        requires lb { lb < length self.now }
        ensures value { At self.now lb (λ b. result ≡ length b.entries) }
    {
        self.books[lb as usize].kept()
    }

    /// Gives the Books back. The share, which has every part, says how many entries they ever added. It takes no memory.
    pub fn close(self, share: Share<L>) -> BookList
        requires whole { share.parts ≡ L.parts }
        ensures books { result ≡ self }
        ensures counted { share.amount ≡ added_in self }
    {
        let mut site = self;
        let mut share = share;
        site.total.audit(&mut share);
        let Site { books, total: _ } = site;
        BookList::from_vec(books)
    }
}

// Tells that each journal is legal, which the type of each Book keeps: it reads a number of each Book.
fn vouch(books: &[Book])
    ensures { AreLegal books.now }
{
    for book in books {
        book.kept();
    }
}
