//! The messages of the container, AJPv1.3, both ways, and how far a talk came with them.
//!
//! Source: AJPv1.3 reference, "Response Packet Structure": Send Headers, Send Body Chunk, End Response, Get Body Chunk,
//! CPong Reply.
//! Own rules: a chunk without its last zero byte is read too, and an absent string reads as an empty one
//! (docs/DECISIONS.md).
//! Shapes: a payload is what comes after a packet's first 4 bytes; a limit counts these 4 bytes too.
//! Contract: `decode_reply`, clauses `found` and `refused`; `encode_reply`, clause `ok`. Read first: specs/Spelling.antt.
//! Errors: `DecodeError` names the first place of the payload that cannot be read; `EncodeError`.
#![tactic(auto)]

mod decoding;
mod encoding;
mod laws;
mod message;
mod names;
mod stage;

pub use decoding::{decode_reply, take_reply};
pub use encoding::encode_reply;
pub use laws::{
    bytes_of_no_reply, one_message_a_payload, one_reading, readings_go_on,
    written_messages_are_read_again,
};
pub use message::{Message, ReplyParts};
pub use names::reply_names;
pub use stage::Stage;
