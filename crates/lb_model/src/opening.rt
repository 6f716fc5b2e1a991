//! Openings, with which a journal begins.
ghost use Rattle.std.specs.Prelude.{◌↔◌, IsTrue};

use crate::config::LbConfig;
use crate::validity::{are_opening_rows, are_tickets, has_room, is_within};
use crate::view::RowList;
use jk_io::ListOf;

/// The tickets that are out, each with its member, in rising order of tickets.
pub type TicketList = ListOf<(u64, u32)>;

/// The state that a journal begins with.
#[derive(Drop)]
pub struct Opening {
    pub config: LbConfig,
    pub rows: RowList,
    pub out: TicketList,
    /// The number of the first entry.
    pub next: u64,
    /// The moment before which no entry stands, in seconds.
    pub at: u64,
    /// The moment of the last maintenance.
    pub maintained: u64,
    /// The member that was chosen last.
    pub chosen: Option<u32>,
}

impl Opening {
    ghost use Rattle.lb_model.specs.Validity.{IsOpening};

    /// Whether a journal may begin so: tickets that rise and are on members, a row for each member that shows it,
    /// loads that nothing before could exceed, and a number left for each Return. It takes no memory.
    pub fn is_valid(&self) -> bool
        ensures valid { IsTrue result ↔ IsOpening self.now }
    {
        let members = self.config.members.len();
        let out = self.out.as_slice();
        has_room(self.next, out.len())
            && are_tickets(members, self.next, out)
            && is_within(members, self.chosen)
            && self.maintained <= self.at
            && are_opening_rows(self)
    }
}
