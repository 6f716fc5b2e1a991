//! Has two callers take turns at one Book, serves the clients of two such callers, and shows where what came out is otherwise
//! than its row says.
//!
//! The rows stand in crates/pass_checks/data/pass, and what they want comes from the rules, worked out by hand.
#![tactic(auto)]

mod callers;
mod meeting;
mod notes;
mod pair;
mod sessions;
mod stages;
mod start;

use anyhow::Result;

fn main(rt: HostRuntime) -> Result<()> {
    notes::judge(&rt)?;
    meeting::judge(&rt)?;
    stages::judge(&rt)
}
