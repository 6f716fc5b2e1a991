//! A Book for each balancer of a configuration.
ghost use Rattle.std.specs.Prelude.{◌≡◌, ◌≤◌, length, map, IfOk};
ghost use Rattle.site_reports.specs.Starts.{AreStarts};

use jk_io::{NoMemory, SizeList};
use lb_book::{Book, BookList};
use lb_model::MOST_NUMBERS;
use site_config::Lb;
use std::alloc::Global;

/// A Book for each balancer, which starts at the moment `at`; its first entry has the number `first`.
pub fn books_of(alloc: Global, lbs: &[Lb], at: u64, first: u64) -> Result<BookList, NoMemory>
    requires { first ≤ MOST_NUMBERS }
    ensures { IfOk result (AreStarts lbs.now at first) }
{
    let mut books = Vec::with_capacity(alloc, lbs.len())?;
    for lb in lbs {
        books.push(Book::start(alloc, lb.book.copy()?, at, first)?)?;
    }
    Ok(BookList::from_vec(books))
}

/// How many members each balancer has, in the order of the balancers.
pub fn member_counts(alloc: Global, lbs: &[Lb]) -> Result<SizeList, NoMemory>
    ensures { IfOk result (λ counts. counts ≡ map (λ lb. length lb.book.members) lbs.now) }
{
    let mut counts = Vec::with_capacity(alloc, lbs.len())?;
    for lb in lbs {
        counts.push(lb.book.members.len() as u32)?;
    }
    Ok(SizeList::from_vec(counts))
}
