//! Forward Requests of AJPv1.3, written for a container and read by one.
//!
//! Source: AJPv1.3 reference, "Request Packet Structure".
//! Own rules: an absent remote host or value reads as an empty one; more than 100 headers are refused; a method without a
//! code is written before any other attribute that stores one (docs/DECISIONS.md).
//! Shapes: a payload is what comes after a packet's first 4 bytes; a limit counts these too. Method codes are 1 to 27,
//! and FF says that an attribute stores the method.
//! Contract: `decode_forward`, clauses `found`, `none` and `exact`; `encode_forward` and `encode_parts`, clauses `ok`
//! and `spelled`.
//! Read first: specs/Spelling.antt, then specs/Reading.antt and specs/Writing.antt.
//! Errors: `DecodeError` names the first place of the payload that can't be read; `EncodeError`.
#![tactic(auto)]

mod attribute;
mod attribute_reading;
mod attribute_writing;
mod decoding;
mod encoding;
mod forward;
mod laws;
mod tables;

pub use attribute::{Attribute, AttributeList};
pub use decoding::decode_forward;
pub use encoding::{encode_forward, encode_parts};
pub use forward::{Forward, ForwardParts};
pub use laws::{one_request_a_payload, written_requests_are_read_again};
