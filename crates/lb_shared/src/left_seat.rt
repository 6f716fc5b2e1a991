//! The seat of a desk that left.

use crate::site::SiteName;
use crate::told::SiteSeat;
use jk_io::ListOf;
use std::marker::Model;

/// A seat at the Site's lock, with the history that it has seen. Only a desk that leaves makes one.
#[derive(Drop)]
pub struct LeftSeat<L: SiteName> {
    seat: SiteSeat<L>,
}

impl<L: SiteName> Model for LeftSeat<L> {
    ghost use Rattle.lb_shared.specs.Histories.{IsResting, SeatNote, seat_note};

    ghost Value = { SeatNote };

    ghost view = { λ s. seat_note L.starts s.seat.table_id s.seat.me };

    ghost invariant = { λ s. IsResting s.seat.me };
}

/// The seats of desks that left, in order.
pub type LeftSeatList<L> = ListOf<LeftSeat<L>>;

impl<L: SiteName> LeftSeat<L> {
    ghost use Rattle.std.specs.Prelude.{◌≡◌, [], false};
    ghost use Rattle.lb_shared.specs.Seats.{seated};
    ghost use Rattle.lb_shared.specs.Histories.{IsResting, log_in, seat_note};

    pub(crate) fn new(seat: SiteSeat<L>) -> LeftSeat<L>
        requires { IsResting seat.me }
        ensures { result ≡ seat_note L.starts seat.table_id seat.me }
    {
        LeftSeat { seat }
    }

    pub(crate) fn into_seat(self) -> SiteSeat<L>
        ensures lock { result.table_id ≡ self.lock }
        ensures me { result.me ≡ (seated false self.number self.steps, []) }
        ensures seen { (self.seen ≡ log_in self.steps) × (self.starts ≡ L.starts) }
    {
        let LeftSeat { seat } = self;
        seat
    }
}
