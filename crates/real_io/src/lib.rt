//! The outside as the system gives it: TCP doors, dials and links, files, the clock, standard input and output.
//!
//! They meet the traits of `jk_io`, and tell nothing of what they hold.
//! Source: an own rule: a call fails only where the object's count of faults rose in it, and after a refusal nothing was given
//! or taken. What a worker wrote to its client goes out before it reads or waits, by an `Outbox` that its door and its
//! dial share.
//! Contract: the traits' clauses, and what a link to a member makes of what it is told to await (`TcpLink::await_next`, specs/Patiences.antt).
//! Read first: src/tcp_door.rt.
//! Errors: `IoError` and `FileError`; want of memory alone needs no cause.
#![tactic(auto)]

mod ending;
mod failed_calls;
mod heads;
mod held_bytes;
mod leisure;
mod member_address;
mod moments;
mod notices;
mod outbox;
mod pace;
mod passing;
mod real_files;
mod std_streams;
mod stream_end;
mod tcp_dial;
mod tcp_door;
mod tcp_link;
mod unflushed;
mod waited_stream;

pub use ending::Ending;
pub use heads::{MAX_HEAD_BYTES, head_end};
pub use held_bytes::{HELD_BYTES, HeldBytes};
pub use leisure::{GLANCE_MILLIS, LOOK_MILLIS, Leisure};
pub use moments::moment;
pub use notices::{Notices, Tally};
pub use outbox::Outbox;
pub use pace::{PACE_SECONDS, Pace};
pub use passing::{is_passing, is_wanting, pause};
pub use real_files::{RealClock, RealFiles, is_of_socket};
pub use std_streams::{ReadSource, StdIn, StdOut};
pub use stream_end::StreamEnd;
pub use tcp_dial::{DIAL_MILLIS, TcpDial};
pub use tcp_door::{CLIENT_SECONDS, MAX_ACCEPT_TRIES, TcpDoor};
pub use tcp_link::{AHEAD_BYTES, LinkParts, TcpLink, room_ahead};
pub use waited_stream::AtHand;
