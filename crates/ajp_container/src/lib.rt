//! A container of a few applications, at the other end of a link that speaks AJPv1.3; and a worker thread for each door, which serves
//! that door's links.
//!
//! Source: AJPv1.3 reference, "Request Packet Structure", "Response Packet Structure", "Get Body Chunk", "CPing".
//! Own rules: the applications, the secret of a request, when a body is asked for, what ends a talk or a worker
//! (docs/DECISIONS.md, "The container of jkd", has the last).
//! Shapes: a packet's size counts its 4 bytes of head. Names of headers are looked up in either case. Lists of turns and
//! of answers to asks have the newest first.
//! Contract: `serve_ajp`, clause `talk`; `app_answer`, clause `answer`. Read first: specs/Pages.antt and specs/Answer.antt,
//! then specs/Turns.antt and specs/Ends.antt. `run_container`, clauses `served` and `unasked`, and `serve_doors`, clause `kept`, which
//! serves at what has a door beside other things; read specs/Served.antt, over jk_io's specs/Doors.antt.
//! Errors: `ContainerEnd` tells how a talk ended; after each of its variants nothing more is read or written. The doors come back for
//! want of memory, before one was asked; after that each worker's end is a `ContainerWorker`.
#![tactic(auto)]

mod answering;
mod app_config;
mod application;
mod body;
mod cutting;
mod door_links;
mod ends;
mod has_door;
mod laws;
mod packets;
mod page;
mod request;
mod sending;
mod serving;
mod worker_ends;
mod workers;

pub use answering::{MessageList, app_answer};
pub use app_config::AppConfig;
pub use door_links::serve_links;
pub use ends::ContainerEnd;
pub use has_door::HasDoor;
pub use laws::{
    a_body_is_asked_for_to_its_end, a_body_is_its_chunks, a_page_is_a_reply,
    an_answer_is_whole_or_dropped, answers_fit_their_packets, what_is_sent_is_spelled,
};
pub use serving::serve_ajp;
pub use worker_ends::{
    ContainerRun, ContainerRunEnd, ContainerWorker, ContainerWorkerList, DoorList,
};
pub use workers::{run_container, serve_doors};
