//! The fate of an idle link that is looked at.

/// What becomes of an idle link that is looked at.
pub enum Fate<A> {
    /// It was idle too long.
    Aged,
    /// It didn't answer.
    Dead,
    /// Memory was wanted while it was pinged.
    Wanted,
    Kept(A),
}
