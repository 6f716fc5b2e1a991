//! A look at an input: how much it gave, and whether a read failed.

/// What is known of an input.
#[derive(Clone, Copy)]
pub struct InputSeen {
    /// How many bytes it gave; the count stays at the greatest u64.
    pub bytes: u64,
    /// Whether a read failed.
    pub failed: bool,
}
