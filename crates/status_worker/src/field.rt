//! One part of a query.
use jk_io::{Bytes, ListOf};

/// A name and its value, decoded.
#[derive(Drop)]
pub(crate) struct Field {
    pub name: Bytes,
    pub value: Bytes,
}

/// The fields of a query, in order.
pub(crate) type FieldList = ListOf<Field>;
