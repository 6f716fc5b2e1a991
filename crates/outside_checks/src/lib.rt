//! Reads rows of data/ on objects in memory, on files, on pools and on talks over links that are kept, and looks at the system's
//! clock and streams; reads rows on the log of requests and on the watch over idle links; looks at links over the loopback, at
//! clients that wait, at a stop, at members that say nothing, and at two threads that share one pool. Shows each row that comes
//! out otherwise, and each claim with whether it holds.
//!
//! What a row wants is worked out by hand. How a row is written stands in docs/FORMATS.md, and which keys it has at the heads of
//! crates/checks/data/outside/outside.txt, log/logs.txt and log/watches.txt.
#![tactic(auto)]

mod area;
mod counted_dial;
mod gates;
mod idle_reach;
mod lists;
mod log_area;
mod logs;
mod memory;
mod outboxes;
mod pools;
mod reaches;
mod reading;
mod rooms;
mod served;
mod shared_pools;
mod silent;
mod socket_area;
mod socket_pools;
mod sockets;
mod stops;
mod system;
mod threads;
mod watches;

pub use area::judge;
pub use log_area::judge_logs;
pub use socket_area::judge_sockets;
pub use sockets::{answers_a_dial, listener};
