//! The balancer's plain types, and all definitions that speak of it.
//!
//! Source: Apache Tomcat Connectors reference, "workers.properties" and "LoadBalancer HowTo".
//! Own rules: the form of loads, the probe and revival rules, ties (docs/DECISIONS.md), and the ranges (docs/FORMATS.md).
//! Contract: the types' own, and the laws of `laws`.
//! Read first: specs/Journal.antt, then specs/Tickets.antt, States.antt, Loads.antt, Choice.antt, Legal.antt.
//! Errors: `ConfigError`; `RoomError`, `AdminError` and `Stray` are what a Book answers.
#![tactic(auto)]

mod ask;
mod change;
mod config;
mod config_error;
mod fail_list;
mod journal;
pub mod laws;
mod lcm;
mod load;
mod member;
mod opening;
mod refusal;
mod row_sink;
mod segment;
mod served;
mod served_list;
mod state;
mod validity;
mod view;

pub use ask::{Ask, Terms};
pub use change::{Change, Command, Redirect};
pub use config::{LbConfig, MAX_BALANCERS, MAX_MEMBERS, MAX_PERIOD_SECONDS};
pub use config_error::ConfigError;
pub use fail_list::FailList;
pub use journal::{Answer, Call, Entry, EntryList, How, Kind, MOST_BYTES, Outcome};
pub use lcm::lcm_of;
pub use load::halve;
pub use member::{Activation, MemberConfig, MemberList, Method};
pub use opening::{Opening, TicketList};
pub use refusal::{AdminError, FullMark, RoomError, Stray};
pub use row_sink::{NoRows, RowSink};
pub use segment::{MODERN_RULES, Segment};
pub use served::{Asked, Served};
pub use served_list::ServedList;
pub use state::MemberState;
pub use validity::MOST_NUMBERS;
pub use view::{MemberRow, RowList, View};
