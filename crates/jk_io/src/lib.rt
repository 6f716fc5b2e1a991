//! The outside as values and traits: what a stream, a file, a clock, a dial, a door and a reach are to the rest.
//!
//! A trait's meanings, such as the bytes that are still to come, are told by the objects in memory and not by the
//! real thing: each is an option, and one equation holds of both.
//! Source: an own rule: a call fails only where the object's count of faults rose in it, and after a refusal nothing was given
//! or taken.
//! Contract: each trait's clauses; `next_client`, by which a worker takes a door's clients one after the other and leaves
//! their links there. Read first: specs/Told.antt, then src/traits/streams.rt; specs/Doors.antt for doors.
//! Errors: `IoError` and `FileError`; want of memory alone needs no cause. A door that fails is an `Arrival`.
#![tactic(auto)]

mod arrivals;
mod byte_list;
mod client_limits;
mod decimals;
mod failures;
mod list_of;
mod memory;
mod reaching;
mod reading;
mod traits;
mod whole_input;
mod writing;

pub use arrivals::{Arrival, next_client};
pub use byte_list::Bytes;
pub use client_limits::ClientLimits;
pub use decimals::{parse_decimal, put_decimal, trim};
pub use failures::{FileError, IoError, NoMemory};
pub use list_of::{ListOf, NumberList, SizeList, SizeTable};
pub use memory::{
    ClientList, FileList, GATE_PLACES, Gate, GateLink, LinkPlan, MemDial, MemDoor, MemFiles,
    MemLink, MemLinkList, MemReach, PatientLink, StepClock, TalkBook, Turn,
};
pub use reaching::{Begun, Beside, Talk, TalkAsked, TalkList};
pub use reading::{Filled, Stop, fill};
pub use traits::{Awaited, Clock, Dial, Door, Files, Link, Meanings, Peer, Reach, Sink, Source};
pub use whole_input::{MAX_INPUT_BYTES, read_whole};
pub use writing::{write_all, write_counted};
