//! A drill: many threads make requests over one Site, each through sessions of its own to a container in memory, and the
//! journal tells afterwards whether each request was answered. And the laws of a connector's talk and a container's at the two ends
//! of one link: what the definitions of both say together.
//!
//! Source: own rules: which requests are made, the links in memory, the summary, and that a drill is lost exactly where its journal
//! lacks a request (docs/DECISIONS.md). The laws' definitions are those of exchange, ajp_talk and ajp_container, over AJPv1.3's
//! spellings.
//! Shapes: requests are numbered from 0, and thread t makes those with t as the rest by the number of threads, in sessions of
//! at most 1,000; the journal is that of the Book, oldest entry first. Of a law, a talk's messages, turns and answers to asks have
//! the newest first, an application's answer the oldest.
//! Contract: `run_drill`, and `write_drill`, which writes what that hands out; the laws of src/laws.rt. Read first:
//! specs/Requests.antt, specs/Drills.antt, then specs/Summaries.antt, Ends.antt and Written.antt; of the laws specs/Meeting.antt.
//! Errors: `DrillError`: receipts and entries that differ, a journal that lacks a request, or want of memory; `DrillEnd` has
//! these, a write that failed, and want of memory in one.
#![tactic(auto)]

mod answered;
mod app_link;
mod app_reach;
mod body_sum;
mod drill_error;
mod laws;
mod pass_slots;
mod plan;
mod requests;
mod running;
mod site;
mod slots;
mod summary;
mod thread;
mod wire;
mod writing;

pub use app_link::AppLink;
pub use app_reach::AppReach;
pub use drill_error::{DrillError, Drilled};
pub use laws::{
    a_container_goes_on_after_each_turn, a_first_get_is_answered, a_post_gets_its_own_bytes,
    a_reply_is_the_applications_answer, an_exchange_gives_the_applications_answer,
    an_exchange_is_answered,
};
pub use plan::{MAX_REQUESTS, MAX_THREADS};
pub use running::run_drill;
pub use writing::{DrillEnd, DrillOrder, write_drill};
