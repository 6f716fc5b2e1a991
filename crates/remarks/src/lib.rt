//! Remarks to a person, on a site's files and on a command that ended: the word, the file or the line at fault, why lines are refused,
//! and what has no effect.
//!
//! Source: own rules (docs/FORMATS.md, "What a person is told").
//! Shapes: `KeptFiles` and `CountedInput` go round the files and the input of a command, and `remarks_on` is called once it
//! ended, with what the command itself found of a site's files: these are judged there, and here only the lines after the first
//! refused one. Nothing here changes what the command reads, writes or answers.
//! Contract: `site_remarks`. Read first: specs/Remarks.antt, then specs/Refused.antt, Explained.antt, Notices.antt, MapNotices.antt.
//! `remarks_on`, a clause for each status, and `cause`; `effects_on`, what of accepted files has no effect; `KeptFiles` and
//! `CountedInput` are read as what they go round, and keep how a read went (clauses `kept` and `seen`): specs/Said.antt, then
//! specs/Seen.antt. `WriteSink` and `MarkedSink` are sinks over one of std's writers, and tell nothing of what is written.
//! Errors: a write that failed, only where the sink's count of faults rose, and want of memory.
#![tactic(auto)]

mod asked;
mod counted_input;
mod ended;
mod explain;
mod input_seen;
mod kept_files;
mod last_read;
mod map_effects;
mod marked_sink;
mod notices;
mod read_file;
mod refused;
mod remark_out;
mod remarks;
mod site;
mod site_effects;
mod site_file;
mod values;
mod wanted;
mod words;
mod write_sink;

pub use asked::command_asked;
pub use counted_input::CountedInput;
pub use ended::{Ended, remarks_on};
pub use input_seen::InputSeen;
pub use kept_files::KeptFiles;
pub use last_read::unread_file;
pub use marked_sink::MarkedSink;
pub use read_file::{ReadFile, ReadOutcome};
pub use remark_out::RemarkOut;
pub use remarks::site_remarks;
pub use site_effects::effects_on;
pub use site_file::SiteNames;
pub use write_sink::WriteSink;
