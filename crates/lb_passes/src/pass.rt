//! A caller's pass, and notes of its part of the history.
ghost use Rattle.std.specs.Prelude.{◌≡◌, true};
ghost use Rattle.lb_passes.specs.Holds.{IsIdle, IsNote};

use crate::PassView;
use atomic_table::Seat;
use jk_io::ListOf;
use lb_book::Book;

/// A place at a pass book's table.
pub(crate) type PassSeat = Seat<Book, PassView>;

/// A caller's place at a pass book. It borrows nothing.
#[derive(Drop)]
pub struct Pass {
    pub(crate) seat: PassSeat,
    /// The caller's number.
    pub(crate) number: u32,
    ghost numbered: { seat.me.0.number ≡ number },
    ghost idle: { IsIdle seat.me },
    ghost root: { number ≡ 0 → seat.me.0.roots ≡ true },
}

/// Passes in order.
pub type PassList = ListOf<Pass>;

/// What a caller had seen when it was made, for another caller. It must be spent.
pub struct Note {
    pub(crate) seat: PassSeat,
    ghost noted: { IsNote seat.me },
}
