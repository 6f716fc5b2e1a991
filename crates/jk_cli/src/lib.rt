//! The words of the command line: which of them are a command, and what it is asked for.
//!
//! Source: own rules, in the usual form of long options: `--name VALUE`, `--name=VALUE`, and `--` before words that
//! may begin with `-`.
//! Shapes: a word is bytes; a line of words is read as a list of parts, each a word by its place or an option.
//! Contract: `read_words`, clauses `ok` and `bad`. Read first: specs/Orders.antt, from its end upwards, then
//! specs/Parts.antt.
//! Errors: `WordsError`. `Bad` comes by the words alone, before any memory is taken.
#![tactic(auto)]

mod help;
mod name;
mod order;
mod part;
mod places;
mod plan;
mod plans;
mod ranges;
mod reading;
mod values;

pub use help::{command, usage_of};
pub use name::{CommandName, name_of};
pub use order::{Order, ServeOrder, WordsError};
pub use ranges::{
    ContainerRoute, DrillRequests, MOST_REQUESTS, MOST_ROUTE_BYTES, MOST_THREADS, ThreadCount,
};
pub use reading::{command_of, read_words};
pub use values::{
    MOST_ENTRIES, MOST_IDLE_ROUNDS, MOST_RATE, MOST_SECONDS, MOST_WAITING, MOST_WATCH_SECONDS,
};
