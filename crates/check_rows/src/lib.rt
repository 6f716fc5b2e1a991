//! Rows of data files: how they are read, how their bytes come and go, and whether they come out as they want; and callers that are
//! proved from the traits of the outside alone.
//!
//! How a row is written stands in docs/FORMATS.md. A crate of checks has an `Area` for its files, which does what a row says, or a
//! `RowTeller`, which tells what comes out of it by words.
//! A caller in callers.rt is generic over a link, a door or a reach. So its contract, which says what was read, written, left
//! and noted, shows that the clauses of the trait suffice for the crates above.
//! Source: own rules for how rows are written. Read first: src/judging.rt and row.rt; of the callers src/callers.rt.
//! Contract: `echo`, clause `echoed`; `pass_on`, clauses `passed` and `closed`; `ask`, clause `talk`;
//! `speaks_between_talks`, clause `refused`; `quiet_talk`, over a reach in memory, clause `steady`.
//! Errors: those of the traits.
#![tactic(auto)]

mod callers;
pub mod comparing;
pub mod files;
pub mod judging;
pub mod row;
pub mod telling;
pub mod texts;
pub mod told;
pub mod ways;

pub use callers::{ask, echo, pass_on, quiet_talk, speaks_between_talks};
