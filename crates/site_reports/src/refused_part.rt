//! What of a workers.properties is refused.

/// What of a workers.properties is refused.
#[derive(Clone, Copy)]
pub enum RefusedPart {
    /// The line by itself.
    Line,
    /// The workers together, of lines each of which passes by itself.
    Workers,
}
