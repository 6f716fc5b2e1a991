//! Requests of a client: heads, what its bytes say and what they are refused for, and bodies, taken in pieces, by length or by chunks.
//!
//! Source: RFC 9112, sections 2, 3, 5, 6, 7.1 and 9.6, and RFC 9110, sections 5.6.1 and 10.1.1, in a strict profile: a line ends
//! in CR LF alone, and nothing but digits and an extension stands in a chunk line.
//! Own rules: where a head ends and how its lines are counted, the limits of heads, of a chunk line, of the trailer and of a
//! chunked body's data, the order of the refusals, the clean path, which byte breaks the grammar of a body. What is a head of 1.0
//! or 1.1 is what the grammar of the parser's contract (`httparse`) reads whole; bodies rest on no parser.
//! Shapes: a field line is a pair of a name and a value without outer blanks; the bytes of a client that are still
//! to be read are those in the inbox, and after them what its link has to come (specs/Unread.antt). A place is where a reader
//! of a body stands between two bytes; the data of bytes from a place on is whole, or goes to where the bytes end, or to a bad
//! chunk line (specs/Body.antt).
//! Contract: `read_head`, clauses `head`, `end`, `refused`, `truncated`, `unasked`; `clean_path`; `BodyIn::take`, clauses `ok`,
//! `err`, `unasked`. Read first: specs/Request.antt; for bodies specs/Takes.antt over specs/Body.antt, then specs/Places.antt;
//! specs/Chunked.antt has the grammar of chunks, and the laws that tie the places to it.
//! Errors: `HeadError`, after each of which no byte is used; `BodyFault`, of which the first of a body is answered again by each
//! later call.
#![tactic(auto)]

mod answers;
mod body;
mod body_laws;
mod cut;
mod fault;
mod fields;
mod framing;
mod head;
mod head_lines;
mod hosts;
mod inbox;
mod judging;
mod laws;
mod parsing;
mod path;
mod place;
mod reading;
mod walk;

pub use answers::{Form, HeadError, HeadGot, PathError};
pub use body::BodyIn;
pub use body_laws::{
    bad_lines_are_what_no_body_has, chunked_bodies_are_read_whole,
    only_chunked_bodies_are_read_whole,
};
pub use fault::BodyFault;
pub use framing::MAX_BODY_BYTES;
pub use head::{BodyPlan, Head};
pub use head_lines::{HeadLines, MAX_HEAD_LINES};
pub use inbox::{Inbox, MAX_HEAD_BYTES};
pub use laws::{a_head_is_lines, one_answer};
pub use path::clean_path;
pub use place::Place;
pub use reading::read_head;
