//! The reply's bytes: a container's reply written to the client, framed, and the answers that the connector makes itself.
//!
//! Source: RFC 9112, sections 4 (status line), 5 (field lines), 6 (message body) and 7.1 (chunks); RFC 9110, section 15.
//! Own rule: a reply is held until its first chunk that isn't empty (docs/DECISIONS.md, "The head is held").
//! Shapes: what the container sent is a head and a list of chunks, the newest first.
//! Contract: `ReplyWriter`, clauses `step`. Read first: specs/ReplyBytes.antt, then specs/Writer.antt.
//! Errors: `OutError`. After a fault of the client nothing more is written.
#![tactic(auto)]

mod content_length;
mod dates;
mod framing;
mod head_text;
mod own_answers;
mod passage;
mod pieces;
mod reply_head;
mod reply_laws;
mod reply_writer;

pub use dates::put_date;
pub use framing::RequestKind;
pub use own_answers::{Own, OwnAnswer, OwnKind, own_answer, own_body};
pub use reply_head::{OutError, ReplyHead};
pub use reply_laws::{replies_end_whole, replies_grow_by_chunks, what_is_written_stays_a_prefix};
pub use reply_writer::ReplyWriter;
