//! Does all commands over files, an output and a world in memory, row by row, and shows each row that comes out otherwise.
//!
//! The rows stand in crates/serve_checks/data/serve, and what they want comes from the rules, worked out by hand or by
//! vectors/serving.py. How a row is written stands in docs/FORMATS.md. Here its keys are:
//!
//!     gear CLIENTS LINKS  a gear that is handed out, in order, with CLIENTS clients to come to its door and LINKS links to
//!                         be dialled; the bytes of each are those of the next `file`, clients first; with `refuses` after
//!                         them the first accept at its door fails
//!     gear-fails N        the call for a gear or for a log with this number, from 0, fails
//!     door-fails N        the accept with this number, from 0, fails at each door
//!     dial-fails N        the dial with this number fails in each gear
//!     clock N             what each clock answers next, a line for each moment; the last one from then on, and without any 0
//!     shelf-fails N       the keep with this number fails on each shelf
//!     log-fails N         a write of each log fails after its first N bytes
//!     file-fails N        the read of a file with this number fails
//!     output-fails N      a write of the output fails after its first N bytes
//!     checked             what was written is given to `check`, and what that says is told in its place
//!
//! A row with a line `meeting` has no command: two workers serve a client each over one lock, and the member answers the
//! first only once the second's client has its own answer. Its first four `file`s are the bytes of the first client and of
//! its member, and of the second's. What comes out is what was sent on the links that were left.
//!
//! Otherwise what comes out is: what was written, `status N`, `faults N` of the world, and of each gear that came back
//! the links that were left at its door, its talks with members, the segments on its shelf, and its log.
#![tactic(auto)]

mod area;
mod doing;
mod meeting;
mod serving;
mod told;
mod worlds;

use anyhow::Result;

fn main(rt: HostRuntime) -> Result<()> {
    area::judge(&rt)
}
