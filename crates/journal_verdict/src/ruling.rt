//! Verdicts: the first line that is wrong, with what it has and what it ought to have.
use jk_io::Bytes;
use lb_model::Answer;

/// What a line of a journal has, or ought to have.
#[derive(Debug, Drop)]
pub enum Ruling {
    Answer(Answer),
    /// The number of an entry.
    Seq(u64),
    /// The moment of an entry, in seconds.
    Moment(u64),
    /// The count of a segment's entries.
    Count(u64),
    /// A line of an opening.
    Line(Bytes),
    /// The ticket isn't out.
    Stray,
    /// No maintenance is due.
    NotDue,
    /// The command can't be done: 1 no such member, 2 a value out of range, 3 factors that are too wide.
    Refused(u8),
    /// The journal has no number left.
    Full,
}

/// What a journal's check says.
#[derive(Drop)]
pub enum Verdict {
    /// Each entry follows from those before it; `entries` counts those of all segments.
    Good {
        entries: u64,
    },
    /// The first line that differs, what it has, and what it ought to have.
    Bad {
        line: u32,
        kept: Ruling,
        ruled: Ruling,
    },
}

/// The first of some lines or entries that differs from what it ought to be.
#[derive(Drop)]
pub(crate) struct Wrong {
    /// Its place among them, from 0.
    pub(crate) at: usize,
    pub(crate) kept: Ruling,
    pub(crate) ruled: Ruling,
}
