//! A session of one client over desk, links and clock in memory, and the lines that are printed of it.
mod lines;
pub(crate) mod log_report;
mod one_reply;
pub(crate) mod report;
mod start;
