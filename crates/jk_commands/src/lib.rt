//! The commands of jkd: what an order asks for, done by the crates below, over any files, input, output and world.
//!
//! Source: own rules for the commands and their statuses.
//! Contract: `run_jkd`, a clause for each status, of what `read_words` of jk_cli gave. Read first: specs/Commands.antt.
//! `TellingWorld` is the world within, and says of the site that it is shown which lines of its files have no effect.
//! Errors: the statuses 1 to 7, each with its cause; a `Discord`, a stray and a failed drill end `run_jkd` with their values.
#![tactic(auto)]

mod command;
mod ends;
mod telling_world;

pub use command::{let_go, run_jkd};
pub use ends::{EndOf, JkdEnd, NO_COMMAND, NO_MEMORY, OUTPUT_FAULT};
pub use telling_world::{SiteTeller, TellingWorld};
