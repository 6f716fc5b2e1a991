//! All requests of one client, one after the other, to the session's end.
//!
//! Source: RFC 9112, "Connection Management"; the Tomcat Connectors reference for mounts and status workers.
//! Own rules: the causes of a session's end, the count of its requests, when 100 Continue is sent, which answers the
//! connector makes itself (docs/DECISIONS.md; docs/FORMATS.md, "Replies to a client").
//! Shapes: what is known between two steps is a `ClientStanding`; a request leads from one to the next.
//! Contract: `serve_session`: `session`, all requests and the end, the client's bytes and the rows, and what is kept;
//! `each`, what follows of each session that ends so; `awaits` and `dials`, what is waited for; `idle_only`. Read first:
//! specs/Whole.antt, then specs/Sessions.antt and specs/Answers.antt over specs/Standings.antt; then Parts, Causes and Complete.
//! status_worker has what a status worker is asked.
//! Errors: none; each end is a `SessionEnd`, and want of memory is one of them.
#![tactic(auto)]

mod answering;
mod concluding;
mod ending;
mod inquiry;
mod moments;
mod requests;
mod rows;
mod serving;
mod session_site;
mod status;
mod surroundings;
mod turn;
mod writing;

pub use ending::{SessionEnd, SessionStop, Why};
pub use serving::serve_session;
pub use session_site::SessionSite;
pub use surroundings::Surroundings;
