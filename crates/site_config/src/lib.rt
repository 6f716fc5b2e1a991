//! The configuration of a site: its balancers, how each member is reached, its status workers; and the lines of its files: keys and
//! values, directives and what is wrong with one by itself.
//!
//! Source: Apache Tomcat Connectors reference, "workers.properties".
//! Own rules: the ranges of all values, which the types keep; which of a member's time limits is in force (specs/Limits.antt); the
//! numbers of the refusals, how lists are spelled (docs/FORMATS.md, "workers.properties").
//! Shapes: a line ends with LF or CR LF; a property is a line number, a key and a value without outer blanks.
//! Contract: the types; `Config::find`; `MemberLimits`; `read_properties`. Read first: src/config.rt; for the files
//! specs/Properties.antt, then specs/Meanings.antt and specs/Values.antt.
//! Errors: `WorkersError` of lines, with the reason; `PropsError`, with its number.
#![tactic(auto)]

mod balancer;
mod config;
mod cut;
mod directive;
mod endpoint;
mod error;
mod first_pass;
mod ignored;
mod judge;
mod limits;
mod lines;
mod names;
mod properties;
mod property;
mod property_line;
mod says;
mod statuses;
mod subject;
mod value;
mod values;

pub use balancer::{Lb, LbList};
pub use config::{Config, Named, NamedList, Status, StatusList};
pub use cut::{cut_at, cut_at_separator, is_separator};
pub use directive::{
    DIRECTIVES, Directive, behind_worker, directive_of, is_list_key, is_maintain_key, worker_part,
};
pub use endpoint::{EndList, Endpoint};
pub use error::{PropsError, PropsReason, PropsRefusal, WorkersError, refused};
pub use first_pass::{read_entries, said};
pub use ignored::IgnoredList;
pub use limits::MemberLimits;
pub use lines::{first_line, without_mark};
pub use names::{is_name, push_words};
pub use properties::read_properties;
pub use property::{Fault, Property, PropertyList};
pub use property_line::PropertyLine;
pub use statuses::{Statuses, status_of, statuses_of};
pub use subject::Subject;
pub use value::{Value, period_of};
pub use values::{Pings, WorkerKind, activation_of, kind_of, method_of, number_in, truth_of};
