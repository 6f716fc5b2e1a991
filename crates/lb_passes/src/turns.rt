//! The turn of a caller: it takes the Book when the turn has come, and gives it back.
ghost use Rattle.std.specs.Prelude.{◌≡◌, ℕ};
ghost use Rattle.lb_passes.specs.Plays.{Took};
ghost use Rattle.lb_passes.specs.Holds.{Ended, IsIdle, IsTold};

use crate::pass::PassSeat;
use crate::pass_book::PassBook;
use crate::rule::{Counts, Draws, Leaves, Polls};
use std::hint::spin_loop;
use std::sync::Wait;

/// The word of the turns drawn.
const DRAWN: usize = 0;

/// The word of the turns served.
const SERVED: usize = 1;

/// The word of the count of all entries.
const COUNT: usize = 2;

/// How often a caller looks before it sleeps.
const LOOKS: u32 = 100;

/// Draws a turn, waits until it has come, and takes the Book.
pub(crate) fn take_turn<R: Wait>(rt: &R, book: &PassBook, seat: &mut PassSeat)
    requires of { seat.old.table_id ≡ book.now.table.shared.table_id }
    requires idle { IsIdle seat.old.me }
    ensures of { seat.new.table_id ≡ seat.old.table_id }
    ensures came { (t : ℕ) × Took seat.old.me t seat.new.me }
{
    let turn = book.table.shared.fetch_add::<Draws>(seat, DRAWN, 1);
    look_out(book, turn);
    for _ in rt.forever() {
        let served = book.table.shared.load::<Polls>(seat, SERVED);
        if served == turn {
            return;
        }
        sleep_till(rt, book, turn);
    }
    unreachable!()
}

// Looks for a while whether a turn has come, as long as it is the next.
fn look_out(book: &PassBook, turn: u64) {
    for _ in 0..LOOKS {
        if turn.wrapping_sub(book.table.shared.peek(SERVED)) != 1 {
            return;
        }
        spin_loop();
    }
}

// Sleeps until a turn has come. It may return before. The bell is marked before the look: whoever ends the turn before this
// one sees the mark, or the look sees that the turn has come.
fn sleep_till<R: Wait>(rt: &R, book: &PassBook, turn: u64) {
    book.bells.mark(turn);
    if book.table.shared.peek(SERVED) != turn {
        book.bells.sleep(rt, turn);
    }
}

/// Tells the `added` last entries of the Book in hand, gives it back, and wakes the caller of the next turn.
pub(crate) fn end_turn(book: &PassBook, seat: &mut PassSeat, added: u64)
    requires of { seat.old.table_id ≡ book.now.table.shared.table_id }
    requires told { IsTold added seat.old.me }
    ensures of { seat.new.table_id ≡ seat.old.table_id }
    ensures ended { Ended added seat.old.me seat.new.me }
{
    book.table.shared.fetch_add::<Counts>(seat, COUNT, added);
    let served = book.table.shared.fetch_add::<Leaves>(seat, SERVED, 1);
    book.bells.ring(served.wrapping_add(1));
}
