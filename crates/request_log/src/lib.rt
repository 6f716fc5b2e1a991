//! A log of answered requests, one line for each, in a format like that of mod_jk's JkRequestLogFormat.
//!
//! Source: Apache Tomcat Connectors reference, "JkRequestLogFormat"; `%h`, `%t` and `%D` are those of Apache's logs.
//! Own rule: what could break a line or a field is escaped, and `-` stands for what isn't known (docs/FORMATS.md).
//! Read first: specs/Formats.antt, then specs/Lines.antt.
//! Contract: `log_text`, `write_log`, and of `LogRows` what it gains as a sink of rows.
//! Errors: `FormatError`; a log that failed says so by `LogRows::broken`.
#![tactic(auto)]

mod escape;
mod format;
mod format_error;
pub mod laws;
mod line;
mod log_rows;
mod moment;
mod request_line;
mod seen;
mod writing;

pub use format::{Format, Part, read_format};
pub use format_error::{FormatError, refusal_line};
pub use line::put_line;
pub use log_rows::{LogRows, NoTimes, Timed, Times};
pub use seen::Seen;
pub use writing::{log_text, write_log};
