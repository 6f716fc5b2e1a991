//! Reads rows of data/, does the talk that each says between a connector and the container, or serves the session that it
//! says over a client, links, a desk and a clock in memory, and shows each row that comes out otherwise.
//!
//! What a row wants comes from the AJPv1.3 reference, or from vectors/sessions.py. How a row is written stands in docs/FORMATS.md,
//! and which keys it has at the head of each file of crates/checks/data/talk and crates/checks/data/session.
#![tactic(auto)]

mod area;
mod containers;
mod sessions;
mod sites;
mod start;
mod talks;
mod told;

pub use area::judge;
