//! The verdict on a journal's text: good, or the first line that differs from what it ought to be; and a balancer's state, seen
//! from the text as it grows.
//!
//! Source: own rules (docs/FORMATS.md, "Journal text").
//! Shapes: a text is segments; each begins where the former one ended, and each of its entries is what a Book answers
//! to the entry's call. A line that can't be read goes before all that. A text that grows: a line ends with LF, what follows the
//! last LF is no line yet, and the first line that can't be read, or isn't what it ought to be, ends it.
//! Contract: `check_journal`, and the laws of `laws`; `Follower::feed` and `Follower::view`: what is known depends on the bytes
//! alone, and not on how they came. Read first: specs/Verdicts.antt, then specs/Rulings.antt; specs/Followed.antt, then
//! specs/Lines.antt.
//! Errors: `TextError` of journal_text: the first line that can't be read, or want of memory; `FollowError`.
#![tactic(auto)]

mod checker;
mod checking;
mod error;
mod follower;
mod heading;
mod joining;
mod judging;
mod known;
pub mod laws;
mod machine;
mod reached;
mod ruling;
mod run;
mod segment;
mod verdict_text;
mod view;

pub use checking::check_journal;
pub use error::FollowError;
pub use follower::Follower;
pub use joining::{count_lines, line_at};
pub use judging::judge;
pub use ruling::{Ruling, Verdict};
pub use verdict_text::{put_bad, put_verdict};
pub use view::FollowView;
