//! The methods that a member's options speak of.

/// A request's method, as far as `recovery_options` tells it from others.
#[derive(Clone, Copy, Debug, PartialEq, Eq)]
pub enum MethodKind {
    Head,
    Get,
    Other,
}
