//! Makes single calls of the balancer, asks an index, judges openings, reads and checks journals' texts, row by row, and
//! shows each line that comes out otherwise.
//!
//! What the rows of crates/checks/data/value want comes from the rules, worked out by hand. How a row is written stands in
//! docs/FORMATS.md, and which lines it has at the head of each file.
#![tactic(auto)]

mod area;
mod configs;
mod indexes;
mod journals;
mod openings;
mod states;
mod values;
mod verdicts;

pub use area::judge;
