//! Desks over one Book whose callers take turns, and know what they have seen.
//!
//! Source: own rules: turns, passes and notes (docs/DEFINITIONS.md). Behind a lock a caller knows nothing of the hold before its own;
//! here each caller has a legal history that begins with all that it had seen.
//! Shapes: a pass is a caller's place at a `PassBook` and has the caller's number, which is the session of its entries; a
//! `PassDesk` has a pass for each balancer. A note carries what was seen to another caller. A history is oldest entry first and
//! whole, also where its Book was cut; turns are counted from 0, and the words of the table have them modulo 2^64.
//! Contract: `PassDesk` is a `Desk`; the clauses `seen` of its calls, `PassDesk::meet`, and `close_passes`. Read first:
//! specs/Holds.antt, then specs/PassDesks.antt; the rule of the turns is specs/Turns.antt, and each step of a caller keeps it
//! (specs/Plays.antt; proofs/DrawLaws.antt and those beside it).
//! Errors: those of a Book. A call may wait for its turn; that it ever comes is not promised.
#![tactic(auto)]

mod bells;
mod calls;
mod closing;
mod desk_lists;
mod holds;
mod notes;
mod pass;
mod pass_book;
mod pass_desk;
mod pass_view;
mod placed_desk;
mod rule;
mod turns;

pub use closing::{CloseRefused, close_passes};
pub use pass::{Note, Pass, PassList};
pub use pass_book::{MAX_PASSES, PassBook};
pub use pass_desk::PassDesk;
pub use pass_view::{Origin, PassView, Turn};
pub use placed_desk::{PassPlace, PlacedDesk};
