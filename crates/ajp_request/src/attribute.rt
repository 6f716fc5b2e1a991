//! The attributes of a Forward Request, which stand after its headers.

ghost use Rattle.std.specs.Prelude.{◌≡◌, is_some};
ghost use Rattle.ajp_request.specs.Spelling.{stored_method};

use crate::tables::STORED_METHOD;
use jk_io::{Bytes, ListOf};

/// An attribute of a Forward Request.
#[derive(Debug, Drop)]
pub enum Attribute {
    /// A code from 01 to 09, 0C or 0D, and its string: 05 is the query, 06 the route, 0C the secret, 0D a method.
    Plain(u8, Bytes),
    /// Code 0A: the name and the value of a request attribute.
    Named(Bytes, Bytes),
    /// Code 0B: the size of the SSL key in bits.
    KeySize(u16),
}

/// Attributes in the order in which they are written.
pub type AttributeList = ListOf<Attribute>;

/// Whether an attribute stores a method.
pub fn is_stored(attribute: &Attribute) -> bool
    ensures { result ≡ is_some (stored_method attribute.now) }
{
    matches!(attribute, Attribute::Plain(STORED_METHOD, _))
}
