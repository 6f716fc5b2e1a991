//! Closing the desks of a run: their shares come together again, and their receipts are compared with the kept entries.
//!
//! Source: an own rule: the comparison is made where no desk forgot a receipt and no journal was cut (docs/DECISIONS.md).
//! Shapes: entries are compared with their balancers, in the order of balancers and numbers.
//! Contract: `close_desks`, clauses `counted`, `once` and `differs`; `close_own_desks`, clauses `history` and `whole`. Read first:
//! specs/Closings.antt; then specs/OneHistory.antt.
//! `try_a_site` runs two desks on two threads over a Site of its own, and closes them.
//! Errors: `CloseError`. A `Discord` is made by `close_desks` alone.
#![tactic(auto)]

mod close;
mod compare;
mod discord;
mod gather;
mod kept;
mod same;
mod tried;

pub use close::{CloseError, Closed, close_desks, close_own_desks};
pub use discord::Discord;
pub use gather::{LeavingList, ShelfList};
pub use tried::try_a_site;
