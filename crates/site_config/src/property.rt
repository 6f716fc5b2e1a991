//! The properties of a workers.properties, line by line, and what is wrong with one.
use crate::directive::Directive;
use jk_io::{Bytes, ListOf};

/// A line that gives a key its value, both without outer blanks.
#[derive(Drop)]
pub struct Property {
    /// From 1.
    pub line: u32,
    pub key: Bytes,
    pub value: Bytes,
}

/// Properties in the order of their lines.
pub type PropertyList = ListOf<Property>;

/// What is wrong with a property by itself.
#[derive(Clone, Copy)]
pub enum Fault {
    Name,
    /// Of the seconds between two maintenances.
    Period,
    /// Of a directive.
    Value(Directive),
}
