//! AJPv1.3 on the wire: integers, strings, headers and packets, written and read, in either direction.
//!
//! Source: AJPv1.3 reference, "Data Types", "Packet Headers", "Request Packet Structure" and "Response Packet Structure".
//! Own rules: the length FFFF reads as an absent string, and a name's integer from A000 on is a code (docs/DECISIONS.md).
//! Shapes: an integer is a u16, high byte first; a packet is 4 bytes and a payload, and a limit of a packet counts both.
//! A table of names is in the order of its codes, from A001 on. Places in a payload are counted from 0.
//! Contract: `read_packet`, clause `packet`. Read first: specs/Spelling.antt, then specs/Packet.antt and specs/Reading.antt.
//! Errors: after a `PacketError` the place in the stream is lost, so the talk ends.
#![tactic(auto)]

mod errors;
mod fields;
mod head_pairs;
mod headers;
mod laws;
mod names;
mod places;
mod reading;
mod refusal;
mod writing;

pub use errors::{DecodeError, EncodeError, FieldError, PacketError, WireError};
pub use fields::{next_byte, next_int, next_string, next_text};
pub use head_pairs::{HeadPairs, MAX_HEADERS, MAX_NAME_BYTES, headers_len, put_headers};
pub use headers::{name_of, next_headers};
pub use laws::no_packet_begins_another;
pub use names::code_of;
pub use places::{take_int, take_string};
pub use reading::{read_packet, read_packet_into};
pub use refusal::{NotRead, Refusal, RefusalKind, refused};
pub use writing::{
    HEAD_BYTES, MAX_PAYLOAD_BYTES, MAX_STRING_BYTES, body_packet, put_head, put_int, put_string,
    put_text, seal,
};
