//! All passes come together, and the Book is taken out.
ghost use Rattle.std.specs.Prelude.{◌≡◌, ◌++◌, ◌∷◌, [], ℕ, IfOk, IsOk};
ghost use mathlib.Core.Option.{some};
ghost use lib.ListN.{get_elem?};
ghost use Rattle.lb_passes.specs.Closing.{AreAllPasses, HasGathered, CloseInOne, IsJoiner};
ghost use Rattle.lb_passes.specs.declared.pass.Pass.{Pass};
ghost use Rattle.lb_passes.specs.Plays.{joined};

use crate::pass::{Pass, PassList, PassSeat};
use crate::pass_book::PassBook;
use crate::rule::Joining;
use lb_book::Book;

/// The slot of the Book.
const BOOK: usize = 0;

/// There was no memory to close with. All is as it was.
#[derive(Drop)]
pub struct CloseRefused {
    pub book: PassBook,
    pub passes: PassList,
}

/// Takes out the Book, whose entries are those of the passes and no others. It takes no memory, so it isn't refused.
pub fn close_passes(book: PassBook, passes: PassList) -> Result<Book, CloseRefused>
    requires all { AreAllPasses book.table.shared.table_id passes }
    ensures done { IsOk result }
    ensures closed { IfOk result (CloseInOne passes) }
{
    let mut list = passes.into_vec();
    let Some(last) = list.pop() else {
        unreachable!()
    };
    let all = gather(&book, last, list);
    let PassBook { table, .. } = book;
    let mut closed = table.close_with(all);
    let book = closed.take(BOOK);
    closed.free();
    Ok(book)
}

// One seat that carries the numbers of all passes.
fn gather(book: &PassBook, last: Pass, mut list: Vec<Pass>) -> PassSeat
    requires of { (k : ℕ) (p : Pass) → get_elem? (list.items ++ last ∷ []) k ≡ some p → p.seat.table_id ≡ book.now.table.shared.table_id }
    ensures { HasGathered book.now.table.shared.table_id (list.items ++ last ∷ []) result }
{
    let Pass {
        mut seat,
        number: _,
    } = last;
    while let Some(pass) = list.pop() {
        seat = join_pass(book, seat, pass);
    }
    seat
}

// Joins a pass to a seat, or the seat to the pass where that is the first caller's.
fn join_pass(book: &PassBook, mut seat: PassSeat, pass: Pass) -> PassSeat
    requires of { seat.table_id ≡ book.now.table.shared.table_id }
    requires joiner { IsJoiner seat.me }
    requires pass { pass.seat.table_id ≡ book.now.table.shared.table_id }
    ensures of { result.table_id ≡ book.now.table.shared.table_id }
    ensures first { pass.number ≡ 0 → result.me ≡ (joined pass.seat.me.0 seat.me.0, []) }
    ensures other { (pass.number ≡ 0 → ⊥) → result.me ≡ (joined seat.me.0 pass.seat.me.0, []) }
{
    let Pass {
        seat: mut own,
        number,
    } = pass;
    if number == 0 {
        book.table.shared.join_seat::<Joining>(&mut own, seat);
        own
    } else {
        book.table.shared.join_seat::<Joining>(&mut seat, own);
        seat
    }
}
