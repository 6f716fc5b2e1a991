//! Rows of steps: how what is told of each is judged, how a Book begins with a row, and how steps write a balancer's calls; and callers
//! of a desk and of a Book that are proved from their clauses alone.
//!
//! How a row is written stands in docs/FORMATS.md. A crate of checks has a `Teller` for the rows of a file, which does one step after
//! the other; of the rows nothing is claimed but how a Book begins.
//! A caller in callers.rt is generic over the desk. So its contract, which says that tickets are held as before and
//! which entries were added, shows that the clauses of the trait suffice for the crates above. One in lawful.rt cites
//! the laws of lb_model for what a call of a Book returned, so each law's premises are met by every Book. Those in
//! even.rt keep the premises of the law of weights. `desk_checks` runs them.
//! Source: own rules for how rows are written. Read first: src/judging.rt; of the callers src/callers.rt.
//! Contract: `one_exchange`, clauses `held` and `ends`; `change_and_look`, clause `page`; of both `refused`, `added`, `due` and
//! `kept`.
//! Errors: those of the trait and of a Book.
#![tactic(auto)]

pub mod begin;
mod callers;
pub mod calls;
mod even;
pub mod judging;
mod lawful;
pub mod texts;

pub use callers::{Once, change_and_look, one_exchange};
pub use even::{return_evenly, select_evenly, start_evenly};
pub use lawful::{
    cite_bounds, maintain_lawfully, reset_lawfully, return_lawfully, select_lawfully,
};
