//! One talk: a request goes to a container over a link, and its reply goes on to the client.
//!
//! Source: AJPv1.3 reference, "Request Packet Structure" and "Response Packet Structure"; RFC 9112 for what the client gets.
//! Own rules: the stage and the causes of a failure, what is read after the client is gone, the limit of the bytes
//! that come (docs/DECISIONS.md). Where memory is wanted after the client is gone the link is closed, and the end is the
//! client's.
//! Shapes: messages are listed with the newest first; what came after CPong begins with the bytes of the accepted ones.
//! Contract: `talk`, clauses `talk` and `complete`. Read first: specs/Talk.antt, then specs/Owed.antt and
//! specs/Replies.antt; specs/Turns.antt has the steps that talk is made of.
//! Errors: `NoMemory` alone; every other end is a `TalkEnd`.
#![tactic(auto)]

mod awaiting;
mod body_piece;
mod concluding;
mod course;
mod cping;
mod drain;
mod ending;
mod messages;
mod plan;
mod request;
mod room;
mod send_headers;
mod sending;
mod stepping;
mod talking;
mod turn;
mod upload;

pub use ending::{Cause, TalkEnd, Told};
pub use plan::{TalkLimits, TalkPlan};
pub use talking::talk;
