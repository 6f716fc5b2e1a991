//! Notes: what one caller has seen, for another.
ghost use Rattle.std.specs.Prelude.{◌≡◌};
ghost use Rattle.lb_passes.specs.Notes.{IsNoteOfPass, Meets};

use crate::pass::{Note, Pass};
use crate::pass_book::PassBook;
use crate::rule::{Joining, Noting, PutsTogether};

/// The word that a caller reads when it puts together what it has seen and what it was told.
const ANY_WORD: usize = 0;

/// A note of what the pass has seen.
pub(crate) fn note_at(book: &PassBook, pass: &mut Pass) -> Note
    requires of { pass.old.seat.table_id ≡ book.now.table.shared.table_id }
    ensures same { (pass.new.seat.me ≡ pass.old.seat.me) × (pass.new.seat.table_id ≡ pass.old.seat.table_id) × (pass.new.number ≡ pass.old.number) }
    ensures note { IsNoteOfPass pass.old result }
{
    let seat = book.table.shared.split_seat::<Noting>(&mut pass.seat);
    Note { seat }
}

/// What the note has seen becomes part of what the pass has seen.
pub(crate) fn meet_at(book: &PassBook, pass: &mut Pass, note: Note)
    requires of { pass.old.seat.table_id ≡ book.now.table.shared.table_id }
    requires note { note.seat.table_id ≡ pass.old.seat.table_id }
    ensures same { (pass.new.seat.table_id ≡ pass.old.seat.table_id) × (pass.new.number ≡ pass.old.number) }
    ensures meets { Meets pass.old.seat.me.0 note.seat.me.0 pass.new.seat.me.0 }
{
    let Note { seat } = note;
    book.table.shared.join_seat::<Joining>(&mut pass.seat, seat);
    book.table
        .shared
        .load::<PutsTogether>(&mut pass.seat, ANY_WORD);
}
