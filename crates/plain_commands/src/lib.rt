//! The plain commands of jkd: those that wait for nobody but their files, their input and their output. Two of them, `dry`
//! and `log`, serve a client in memory.
//!
//! Source: own rules for the commands, their statuses and what they print (docs/FORMATS.md). What `play` prints is in
//! play_script's specs/Play.antt, what `config` and `match` print in site_reports' specs/Reports.antt, the verdict of `check`
//! in journal_verdict's specs/Verdicts.antt, what is followed in its specs/Followed.antt. What `dry` and `log`
//! print is in specs/Dry.antt; their session is that of `client_session`, and the log's lines are those of `request_log`.
//! Shapes: talks are listed newest first where a definition tells over which links they were done.
//! Contract: `run_plain`, by each end. Read first: specs/Plain.antt, specs/Endings.antt, then site_reports' specs/Readings.antt; of
//! `dry` and `log` specs/Dry.antt, then specs/DryLines.antt and specs/DryLinks.antt; of `follow` specs/FollowedTexts.antt.
//! Errors: the ends of `PlainEnd`, whose statuses are 1 to 6, each with its cause.
#![tactic(auto)]

mod answered;
mod answers;
mod check;
mod commands;
mod dry;
mod follow;
mod log;
mod plain;
mod play;
mod session;
mod texts;
mod turn;

pub use answers::{USAGE, asked_text};
pub use plain::{PlainEnd, PlainRun, run_plain};
