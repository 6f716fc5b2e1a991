//! The text of a journal: its lines, what each is written as and what it says, and segments written as lines, and read again.
//!
//! Source: own rules (docs/FORMATS.md, "Journal text"); the values are lb_model's.
//! Own rule: a line is of its form only where it is just what its words say, written again: no leading zeros, no
//! escape that isn't needed.
//! Shapes: a segment is the line of its rules, the lines of its opening, one line for each entry, and its count. A line is words
//! with single spaces between them; a segment's rules say how the words of an ask stand.
//! Contract: `write_segment`, `read_segments` and the laws of `laws`; `Reader`, for who takes the segments out one by one;
//! `put_line`, `read_line` and the laws of `line_laws`. Read first: specs/Lines.antt, specs/SegmentText.antt, then
//! specs/Reading.antt.
//! Errors: `TextError`: the first line that can't be read, or want of memory; a line that isn't of its form is no line.
#![tactic(auto)]

mod counted;
mod draft;
pub mod laws;
mod line;
pub mod line_laws;
mod line_reading;
mod line_text;
mod line_writing;
mod names;
mod parsing;
mod reader;
mod reading;
mod segments;
mod text_error;
mod wide;
mod words;
mod writing;

pub use counted::{Counted, SegmentList};
pub use draft::OpeningDraft;
pub use line::{BalancerValues, Beginning, Line, MemberValues};
pub use line_text::read_line;
pub use line_writing::{
    put_answer, put_balancer, put_beginning, put_end, put_entry, put_lease, put_line, put_member,
    put_rules,
};
pub use reader::{Reader, TextPlace};
pub use segments::read_segments;
pub use text_error::TextError;
pub use writing::{balancer_values, beginning, member_values, write_segment};
