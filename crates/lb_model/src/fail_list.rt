//! The statuses of `fail_on_status`.
use jk_io::ListOf;

/// The statuses of `fail_on_status`, each with whether a `-` stood before it.
pub type FailList = ListOf<(u16, bool)>;
