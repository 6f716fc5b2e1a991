//! The last segments of Books, kept on the first gear's shelf.
ghost use Rattle.std.specs.Prelude.{◌≡◌, ◌<◌, ◌≤◌, length, IsErrOf, OnErr, OnOk};
ghost use Rattle.jk_io.specs.Told.{HasCause, Rose};
ghost use Rattle.lb_model.specs.declared.config.TheConstants.{MAX_BALANCERS};
ghost use Rattle.gear_parts.specs.Cuts.{AddsCuts, AddsFront, ToFirst};
ghost use Rattle.gear_parts.specs.Steps.{AddsCut};

use crate::world::Gear;
use jk_io::IoError;
use lb_book::{Book, BookList};
use lb_shared::Shelf;

/// Keeps the last segments on the first gear's shelf.
pub fn keep_on_first<D, G, T, K, S: Shelf, O>(
    books: BookList,
    gears: &mut [Gear<D, G, T, K, S, O>],
) -> Result<(), IoError>
    requires some { 0 < length gears.old }
    requires few { length books ≤ MAX_BALANCERS }
    ensures kept { OnOk result (ToFirst (AddsCuts S.shelved books) gears.old gears.new) }
    ensures failed { IsErrOf result IoError.Failed → ToFirst (λ old new. Rose (S.faults old) (S.faults new)) gears.old gears.new }

    // After an error the segments of the first Books were added, and the faults of the shelf rose where it failed.
    ensures front { OnErr result (ToFirst (AddsFront S.shelved books) gears.old gears.new) }
    ensures cause { ToFirst (λ old new. HasCause (S.faults old) (S.faults new) result) gears.old gears.new }
    ensures len { length gears.new ≡ length gears.old }
{
    keep_rest(books, &mut gears[0].shelf)
}

/// Cuts each Book once more, in order, and keeps its segment.
fn keep_rest<S: Shelf>(books: BookList, shelf: &mut S) -> Result<(), IoError>
    requires few { length books ≤ MAX_BALANCERS }
    ensures kept { OnOk result (AddsCuts S.shelved books shelf.old shelf.new) }
    ensures failed { IsErrOf result IoError.Failed → Rose (S.faults shelf.old) (S.faults shelf.new) }
    ensures front { OnErr result (AddsFront S.shelved books shelf.old shelf.new) }
    ensures cause { HasCause (S.faults shelf.old) (S.faults shelf.new) result }
{
    let mut lb: u32 = 0;
    'books: for book in books.into_vec() {
        keep_last(book, lb, shelf)?;
        lb += 1;
    }
    Ok(())
}

/// Cuts a Book once more, and keeps its segment as that of balancer `lb`.
fn keep_last<S: Shelf>(book: Book, lb: u32, shelf: &mut S) -> Result<(), IoError>
    ensures kept { OnOk result (AddsCut S.shelved lb book shelf.old shelf.new) }
    ensures refused { OnErr result (S.shelved shelf.new ≡ S.shelved shelf.old) }
    ensures cause { HasCause (S.faults shelf.old) (S.faults shelf.new) result }
    ensures stands { OnOk result (S.faults shelf.new ≡ S.faults shelf.old) }
{
    let mut book = book;
    let segment = book.cut()?;
    shelf.keep(lb, segment)
}
