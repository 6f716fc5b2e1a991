//! A site of two files: how they are read and judged, the lines that are printed of it, and its Books as they start.
//!
//! Source: own rules for the lines (docs/FORMATS.md, "workers.properties" and "uriworkermap.properties"); which directives have
//! an effect in mod_jk: its reference, "workers.properties".
//! Contract: `put_config`, which adds `config_text`, and `put_matches`, which adds `match_text`. Read first:
//! specs/ConfigText.antt, specs/Matches.antt. `judge_site` judges both texts, for all that is printed or told of them:
//! specs/Found.antt; what has no effect in a workers.properties is noted there: specs/Notes.antt. `read_site`, clause `ok`, reads
//! both files and judges them: specs/Sites.antt; `refusing_line` is the line of those that are refused.
//! For the commands above, which read the files: specs/Readings.antt. `books_of` has a Book for each balancer: specs/Starts.antt.
//! Errors: want of memory, and of `read_site` a fault of the files.
#![tactic(auto)]

mod again;
mod books;
mod config_text;
mod found;
mod judging;
mod kinds;
mod limits_line;
mod match_text;
mod member_line;
mod no_effect;
mod notes;
mod path_lines;
mod reading;
mod refused_part;
mod report;
mod words;

pub use books::{books_of, member_counts};
pub use config_text::put_config;
pub use found::{AcceptedSite, AcceptedWorkers, RefusedMap, RefusedWorkers, SiteFound};
pub use judging::{judge_site, judge_workers};
pub use match_text::put_matches;
pub use no_effect::{NoEffect, WorkersNote, WorkersNoteList};
pub use reading::{Judged, read_site};
pub use refused_part::RefusedPart;
pub use report::{
    Report, map_refusal_text, refusing_line, report_config, report_matches, report_site,
    workers_refusal_text,
};
