//! The entries that the Books keep, and whether these are all.
ghost use Rattle.std.specs.Prelude.{◌≡◌, ◌+◌, ◌≤◌, ◌++◌, ◌↔◌, length, map, true, IfOk, OnOk};
ghost use Rattle.lb_book.specs.PlainDesks.{AreLegal};
ghost use Rattle.lb_shared.specs.Sites.{added_in};
ghost use Rattle.lb_closing.specs.Closings.{AreUncut, kept_from};
ghost use Rattle.lb_model.specs.declared.config.TheConstants.{MAX_BALANCERS};
ghost use Rattle.lb_shared.specs.declared.site.TheConstants.{MOST_ENTRIES};

use crate::compare::Noted;
use jk_io::NoMemory;
use lb_book::Book;
use lb_model::Entry;
use std::alloc::Global;

/// The kept entries of all Books, each with its balancer, in order.
pub(crate) fn kept_in(alloc: Global, books: &[Book]) -> Result<Vec<Noted>, NoMemory>
    requires { length books.now ≤ MAX_BALANCERS }
    ensures { IfOk result (λ kept. kept.items ≡ kept_from 0 books.now) }
{
    let mut kept = Vec::new(alloc);
    for (lb, book) in books.iter().enumerate() {
        let segment = book.segment()?;
        note_all(&mut kept, lb as u32, segment.entries.as_slice())?;
    }
    Ok(kept)
}

fn note_all(kept: &mut Vec<Noted>, lb: u32, entries: &[Entry]) -> Result<(), NoMemory>
    ensures { OnOk result (kept.new.items ≡ kept.old.items ++ map (λ e. (lb, e)) entries.now) }
{
    for entry in entries {
        kept.push((lb, *entry))?;
    }
    Ok(())
}

/// Whether each Book keeps each entry that it added.
pub(crate) fn are_uncut(books: &[Book]) -> bool
    ensures { (result ≡ true) ↔ AreUncut books.now }
{
    books.iter().all(|book| book.kept() == book.added())
}

/// How many entries the Books added.
pub(crate) fn added_by(books: &[Book]) -> u64
    requires { added_in books.now ≤ MOST_ENTRIES }
    ensures { result ≡ added_in books.now }
{
    let mut added = 0;
    for book in books {
        added += book.added();
    }
    added
}
