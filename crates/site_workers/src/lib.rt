//! workers.properties: the configuration that a text gives, or its first refusal.
//!
//! Source: Apache Tomcat Connectors reference, "workers.properties" and "LoadBalancer HowTo".
//! Own rules: the ranges, the numbers of the refusals and their order, how lists are spelled (docs/FORMATS.md).
//! Contract: `read_workers`, clauses `ok` and `refused`; `configure`, the same of lines that were read. Read first: specs/Site.antt,
//! then specs/Given.antt, specs/Settings.antt, site_config's specs/Properties.antt.
//! Errors: `WorkersError`, with the reason; `PropsError`, with its number.
#![tactic(auto)]

mod books;
mod draft;
mod firsts;
mod given;
mod ignored;
pub mod laws;
mod limits;
mod listing;
mod member;
mod member_lists;
mod members;
mod name_table;
mod reference;
mod row;
mod settings;
mod site;
mod table;
mod whole;
mod workers;

pub use site_config::{
    Config, EndList, Endpoint, IgnoredList, Lb, LbList, Named, NamedList, Property, PropertyList,
    PropsError, Status, StatusList, read_properties,
};
pub use workers::{configure, read_workers};
