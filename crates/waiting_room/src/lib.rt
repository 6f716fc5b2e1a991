//! A waiting room for the clients of a server: those that wait hold no thread.
//!
//! New clients, clients between two requests, clients of whose head not all came and links that linger stand in it, shared by the
//! doors of all workers. A worker gets a client once its head is whole, its bytes ended, or they can't be a head any
//! more; a client whose link is idle comes back and is given again.
//! One free worker leads: it waits for the system's word on all links at once, puts what is ready into a queue and passes
//! the lead on. All others take from the queue. The link of a client that was quick is told whether others are
//! free, and then waits for 10 milliseconds at most before it says that it waits.
//! Source: own rules: the limits of clients, and how a link lingers (docs/DECISIONS.md, "Clients that wait").
//! Contract: `Places`, which loses no client, gives each again with what it had read ahead, and says which one goes where too
//! many wait; `Stay::is_over`, which says when one has waited too long; `TcpLink::waits`, clause `looked`, for the 10
//! milliseconds; `RoomDoor::accept`, clause `closed`, for the word without which no door closes.
//! Read first: specs/Stays.antt, then src/places.rt.
//! Errors: `IoError`; want of memory alone needs no cause.
#![tactic(auto)]

mod client;
mod control;
mod door;
mod opening;
mod places;
mod room;
mod stay;
mod table;

pub use client::Client;
pub use door::RoomDoor;
pub use opening::{OpenRoomError, open_room};
pub use places::{Place, Places};
pub use room::Room;
pub use stay::{Limits, Phase, Stay};
