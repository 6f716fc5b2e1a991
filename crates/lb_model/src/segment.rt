//! Segments of a journal, and the number of today's rules.
ghost use Rattle.lb_model.specs.Segments.{AreKeptEntries, AreRules};
ghost use Rattle.lb_model.specs.Validity.{IsOpening};

use crate::journal::EntryList;
use crate::opening::Opening;

/// The rules of a new journal. Those of number 1 are there for old texts.
pub const MODERN_RULES: u8 = 2;

/// A part of a journal: an opening and the entries after it, oldest first.
#[derive(Drop)]
pub struct Segment {
    /// The rules that it is judged by, 1 or 2: under rules 2 a choice may revive members in Error.
    pub rules: u8,
    pub opening: Opening,
    pub entries: EntryList,
    pub ghost versions: { AreRules rules },
    pub ghost valid: { ∥ IsOpening opening ∥₁ },
    pub ghost kept: { AreKeptEntries rules entries },
}
