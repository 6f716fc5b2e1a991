//! The rules of a uriworkermap.properties: which worker a path is mounted at.
//!
//! Source: Apache Tomcat Connectors reference, "uriworkermap.properties".
//! Own rules: the order of the rules that match a path, and the refusals' numbers.
//! Contract: `read_map`, `refusal_of`, `UriMap::mount`, `UriMap::terms`. Read first: specs/Patterns.antt, Mounts.antt, then Lines.antt.
//! `read_rules`, clause `noted`: what of an accepted map has no effect: specs/MapNotes.antt.
//! Errors: `RulesError`, with the reason; `MapError`, with its number.
#![tactic(auto)]

mod error;
mod lines;
mod map_note;
mod matching;
mod members;
mod parts;
mod pattern;
mod role;
mod rule;
mod side;
mod uri_map;
mod workers;

pub use error::{MapError, MapReason, MapRefusal, RulesError};
pub use lines::{read_map, read_rules, refusal_of};
pub use map_note::{MapNote, NoPartEffect, NotedMap};
pub use pattern::Pattern;
pub use rule::{Mount, Role, Rule};
pub use uri_map::UriMap;
pub use workers::Workers;
