//! The Book of one balancer: its journal, and the balancer as the journal leaves it.
//!
//! Source: Tomcat Connectors reference, LoadBalancer HowTo; the rules themselves are lb_model's definitions.
//! Own rules: what a Book keeps beside its journal, and that a ticket is a lease which must be spent.
//! Shapes: a Book is in contracts its rules, its opening, its kept entries and their count (specs/Journal.antt).
//! Contract: `Book::select`, clauses `ok`, `pick` and `full`; `Book::return_ticket`, clauses `found` and `returned`;
//! `Book::maintain_if_due`, clause `due`; `Book::admin`, clause `commanded`; `Book::cut`, clause `cut`; each call's `sound`:
//! the journal, replayed from its opening, gives each answer. Read first: specs/Journal.antt, then specs/Due.antt,
//! Commanded.antt and Ending.antt.
//! `Desk` is what a session asks, with the meanings of specs/Desks.antt; what its clauses say of Books that it tells
//! stands in specs/ToldBooks.antt. `PlainDesk` is one over Books that it owns, whose refusals are told by
//! specs/Refused.antt. What the one history of a Book is, whatever was cut from it, stands in specs/Histories.antt.
//! The functions of `picks`, `multiples` and `halvings` have no body: their contracts are laws of what lb_model's specs/Choice.antt and
//! Multiple.antt mean (specs/Unanswered.antt, Multiples.antt), over a past that is written oldest first.
//! Errors: `RoomError`, `AdminError` and `Stray` of lb_model. After one the Book is as it was.
#![tactic(auto)]

mod beginning;
mod book;
mod commanded;
mod copies;
pub mod desk;
mod ending;
pub mod halvings;
mod hold_at;
pub mod holds;
mod maintenance;
pub mod multiples;
mod opened;
pub mod picks;
mod plain_desk;
mod present;
mod receipt;
mod shown;
mod steps;

pub use book::{Book, Lease, Picked};
pub use desk::Desk;
pub use hold_at::take_out;
pub use lb_model::{Opening, Segment};
pub use plain_desk::{BookList, PlainDesk, PlainLease, chosen};
pub use receipt::{Receipt, ReceiptList};
