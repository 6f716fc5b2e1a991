//! Exchanges: a request goes to members of a balancer, in rounds, until its client has an answer.
//!
//! Source: the Tomcat Connectors reference, workers.properties (`retries`, `recovery_options`, `ping_mode`,
//! `fail_on_status`, `max_packet_size`) and the load balancer how-to.
//! Own rules: what another talk and another round rest on, the outcome of a lease, the first piece (docs/DECISIONS.md).
//! Shapes: talks and rounds are listed with the newest first; a member is its place in its balancer; what is known between
//! two talks is an `Around`, and with the desk and the clock a `Scene`.
//! Contract: `exchange_of`, clauses `exchange`, `client`, `whole_once`, `complete`, `met` and `awaits`. Read first:
//! specs/Exchanges.antt, then specs/Rounds.antt, specs/Talks.antt, specs/OneTalk.antt and specs/Clients.antt; specs/Steps.antt has
//! the steps that an exchange is made of.
//! Errors: none; each end is an `ExchangeEnd`, and want of memory is one of them.
#![tactic(auto)]

mod delivery;
mod ending;
mod exchanging;
mod first_piece;
mod methods;
mod one_talk;
mod own;
mod planning;
mod request;
mod rounds;
mod sides;
mod talks;
mod target;
mod tried;
mod verdicts;

pub use delivery::deliver;
pub use ending::{ExchangeEnd, Ran, RoundVerdict};
pub use exchanging::exchange_of;
pub use request::Request;
pub use sides::{Means, Sides};
