//! Segments as a text has them: with their balancer's name, and how many lines they take.
use jk_io::{Bytes, ListOf};
use lb_model::Segment;

/// A segment as a text has it.
#[derive(Drop)]
pub struct Counted {
    /// The name of its balancer.
    pub name: Bytes,
    pub segment: Segment,
    /// What its last line says is the count of its entries.
    pub count: u64,
}

/// The segments of a text, in order.
pub(crate) type CountedList = ListOf<Counted>;

/// Segments, each with the name of its balancer.
pub type SegmentList = ListOf<(Bytes, Segment)>;
