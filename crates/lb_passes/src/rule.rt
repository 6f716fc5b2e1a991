//! The rule of a pass book's table, and what each step on it tells: the words are those of specs/Turns.antt.

use crate::PassView;
use atomic_table::{Join, Play, Split, TableRule};
use lb_book::Book;
use std::snapshot::Snapshot;

/// What a table began with, and the count of kept entries at which its Book is cut, 0 for never.
#[derive(Drop)]
pub(crate) struct Founding {
    pub(crate) book: Snapshot<Book>,
    pub(crate) cut_at: u32,
}

/// The rule, for what the table began with.
pub(crate) struct InTurns;

impl TableRule<Book, PassView, Founding> for InTurns {
    ghost use Rattle.lb_passes.specs.Turns.{IsPassTable, first_view};
    ghost use Rattle.lb_passes.specs.Passes.{origin_of};

    ghost holds = { λ key. IsPassTable (origin_of key.book.value key.cut_at) };

    ghost first = { λ key. first_view (origin_of key.book.value key.cut_at) };
}

/// A turn was drawn.
pub(crate) struct Draws;

impl Play<Book, PassView> for Draws {
    ghost use Rattle.lb_passes.specs.Plays.{Drew};

    ghost then = { Drew };
}

/// The caller looked whether its turn has come, and took the Book where it has.
pub(crate) struct Polls;

impl Play<Book, PassView> for Polls {
    ghost use Rattle.lb_passes.specs.Plays.{Polled};

    ghost then = { Polled };
}

/// The entries of a hold were told.
pub(crate) struct Counts;

impl Play<Book, PassView> for Counts {
    ghost use Rattle.lb_passes.specs.Plays.{Counted};

    ghost then = { Counted };
}

/// The Book was given back, and the turn ended.
pub(crate) struct Leaves;

impl Play<Book, PassView> for Leaves {
    ghost use Rattle.lb_passes.specs.Plays.{Left};

    ghost then = { Left };
}

/// What was told by another was put together with what was seen.
pub(crate) struct PutsTogether;

impl Play<Book, PassView> for PutsTogether {
    ghost use Rattle.lb_passes.specs.Plays.{PutTogether};

    ghost then = { PutTogether };
}

/// A new caller with the next number.
pub(crate) struct NextCaller;

impl Split<PassView> for NextCaller {
    ghost use Rattle.lb_passes.specs.Plays.{giver_after, next_caller};

    ghost left = { giver_after };

    ghost right = { next_caller };
}

/// A copy of what was seen.
pub(crate) struct Noting;

impl Split<PassView> for Noting {
    ghost use Rattle.lb_passes.specs.Plays.{noted};

    ghost left = { λ v. v };

    ghost right = { noted };
}

/// Two become one.
pub(crate) struct Joining;

impl Join<PassView> for Joining {
    ghost use Rattle.lb_passes.specs.Plays.{joined, spent};

    ghost both = { joined };

    ghost spent = { spent };
}
