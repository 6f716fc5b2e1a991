//! Rows of a Site over one Book.
ghost use Rattle.std.specs.Prelude.{◌≡◌, ◌∷◌, [], IfOk};
ghost use Rattle.desk_checks.specs.Openings.{OpensSite};

use crate::desks::show_unread;
use crate::leases::OneSite;
use crate::site_row::SiteRow;
use check_lines::begin::{FreshBook, book_of_row};
use check_lines::judging::judge_lines;
use jk_io::NoMemory;
use lb_book::{Book, BookList};
use lb_shared::{Site, SiteName};
use std::alloc::Global;
use std::marker::Brand;
use std::sync::ledger::Blank;

fn list_of(alloc: Global, book: Book) -> Result<BookList, NoMemory>
    ensures { IfOk result (λ books. books ≡ book ∷ []) }
{
    let mut books = BookList::new(alloc);
    books.push(book)?;
    Ok(books)
}

/// A Site of one Book.
pub fn site_of<L: SiteName>(
    alloc: Global,
    blank: Blank,
    fresh: FreshBook,
) -> Result<OneSite<L>, NoMemory>
    requires opens { OpensSite L.name L.parts L.sizes L.firsts blank fresh.book }
    ensures { IfOk result (λ x. (x.site ≡ fresh.book ∷ []) × (x.share.parts ≡ L.parts) × (x.share.amount ≡ 0)) }
{
    let FreshBook { book } = fresh;
    let (site, share) = Site::open(blank, list_of(alloc, book)?);
    Ok(OneSite { site, share })
}

fn judge_lines_of<L: SiteName>(
    alloc: Global,
    asked: SiteRow<L>,
    row: &str,
    shown: &mut String,
) -> Result<u64, NoMemory> {
    let mut asked = asked;
    let judged = judge_lines(alloc, &mut asked, row, shown);
    asked.end();
    judged
}

fn judge_site<L: SiteName, R: AllocGlobal>(
    rt: &R,
    blank: Blank,
    fresh: FreshBook,
    row: &[u8],
    shown: &mut String,
) -> Result<u64, NoMemory>
    requires opens { OpensSite L.name L.parts L.sizes L.firsts blank fresh.book }
{
    let asked = SiteRow::new(rt.alloc(), site_of::<L>(rt.alloc(), blank, fresh)?);
    judge_lines_of(rt.alloc(), asked, str::from_utf8(row).unwrap_or(""), shown)
}

pub fn judge<R: AllocGlobal>(rt: &R, row: &str, shown: &mut String) -> Result<u64, NoMemory> {
    match book_of_row(rt.alloc(), row)? {
        Some(fresh) => judge_site::<Brand, R>(rt, Blank::new(1), fresh, row.as_bytes(), shown),
        None => show_unread(row, shown),
    }
}
