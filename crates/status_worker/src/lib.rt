//! A status worker: the command that a query means, what it asks of the balancers' desk, and its page.
//!
//! Source: the status worker of the Tomcat Connectors reference (names and commands), RFC 3986, section 2.1 (escapes), the
//! HTML standard (references for characters), Prometheus' text exposition format, version 0.0.4.
//! Own rules: the order of refusals, the page's head, its text and its table, a redirect by its member's name, what makes a query
//! bad (docs/DECISIONS.md; docs/FORMATS.md, "The status worker").
//! Shapes: a desk with its clock is a `DeskSide`; what a query asks for is a `Work`; a query is what follows a target's first
//! `?`; a page is a line for each balancer and each member.
//! Contract: `change`, clauses `ok` and `err`; `page_at`; `refusal_answer`; `read_command`, clauses `ok` and `bad`;
//! `commands_for`; `render`, `render_as`; the laws of `laws`. Read first: specs/Fields.antt and specs/Meaning.antt, with the
//! table in specs/PageCommands.antt, then specs/Page.antt, specs/Table.antt and specs/Metrics.antt; for requests
//! specs/Commands.antt, specs/Pages.antt and specs/Refusals.antt.
//! Errors: `NoPage`: why the request is refused, which its answer says in words, or want of memory; `StatusError` of a query; of
//! a page want of memory alone.
#![tactic(auto)]

mod asking;
mod balancer_lines;
mod book_commands;
mod command;
mod commanding;
mod error;
mod escapes;
mod field;
mod form;
pub mod laws;
mod marks;
mod meaning;
mod member_line;
mod metrics;
mod mime;
mod name;
mod page;
mod pages;
mod query;
mod refusal;
mod request;
mod table;
mod targets;
mod texts;
mod values;
mod verb;
mod words;

pub use asking::{NoPage, Work};
pub use book_commands::{CommandList, commands_for};
pub use command::{NamedChange, NamedRedirect, StatusCommand};
pub use commanding::change;
pub use error::StatusError;
pub use meaning::read_command;
pub use mime::{Mime, read_mime};
pub use page::{Address, AddressList, BalancerType, PageList, PagePart, render, render_as};
pub use pages::{Page, page_at};
pub use refusal::{PageRefusal, RefusalAnswer, refusal_answer};
pub use request::PageRequest;
pub use targets::{change_for, member_named};
