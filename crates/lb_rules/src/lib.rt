//! The rules of a load balancer: who gets an ask, what an event makes of a member's state and load, which tickets are out.
//!
//! Source: Tomcat Connectors reference, LoadBalancer HowTo ("failover", "recover_time") and workers.properties ("method",
//! "lbfactor", "worker.maintain"); the words are those of lb_model's definitions.
//! Own rules (docs/DECISIONS.md): the trial of a recovered member, revival, who comes first of equal ones, and that a client
//! that left undoes its own trial alone; units are the factors' least common multiple divided by the member's factor, so loads
//! are whole; a maintenance that comes late halves once for each interval; a ticket is the number of the entry that made it.
//! Shapes: row m is that of member m; a set of members is a u64 whose bit m stands for member m; the entries of a journal are
//! kept oldest first, and beside each, and beside each ticket of the opening, stands the number of the entry that returned the
//! ticket, if there is one: two tables, in contracts `kept` and `early`.
//! Contract: `pick`, clauses `pick`, `revives` and `room`; `next_state`, clause `value`; `unit_of`, `gain_select`, `gain_return`,
//! `halvings`; `locate`, clauses `out`, `stray` and `returned`; the calls of `Index`. Read first: specs/Picks.antt and
//! specs/Weights.antt for a choice, specs/Touched.antt for a state, specs/Spots.antt for tickets.
//! A Book's choice is one pass over its rows. `Index` answers which of a set of members is the least over weights alone,
//! and halves all of them by changing one number; docs/DECISIONS.md says what it gains, and why the Book doesn't keep one.
//! Errors: `Stray` of lb_model. No memory is taken.
#![tactic(auto)]

mod among;
mod choice;
mod gain;
mod halving;
mod index;
mod least;
mod next;
mod numbers;
mod rules;
mod standing;
mod tickets;
mod touch;
mod unit;
mod weight;

pub use among::{Among, passes};
pub use choice::{SelectAnswer, pick};
pub use gain::{gain_return, gain_select};
pub use halving::halvings;
pub use index::Index;
pub use next::next_state;
pub use numbers::next_after;
pub use rules::Rules;
pub use standing::{Standing, opening_row};
pub use tickets::{Spot, find, locate, note_return, returned_at};
pub use touch::Touch;
pub use unit::unit_of;
pub use weight::Weight;
