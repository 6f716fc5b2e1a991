//! A request as it is handed to a container.

ghost use Rattle.std.specs.Prelude.{◌≡◌};
ghost use Rattle.ajp_request.specs.Parts.{told_by};

use crate::attribute::{Attribute, AttributeList};
use ajp_wire::HeadPairs;
use jk_io::Bytes;

/// A request as it is handed to a container.
#[derive(Debug, Drop)]
pub struct Forward {
    pub method: Bytes,
    /// `HTTP/1.1` or `HTTP/1.0`.
    pub protocol: Bytes,
    /// The raw path, without the query.
    pub uri: Bytes,
    pub remote_addr: Bytes,
    /// Empty where the packet leaves it out.
    pub remote_host: Bytes,
    pub server: Bytes,
    pub port: u16,
    pub ssl: bool,
    /// Pairs of name and value, in order, at most 100.
    pub headers: HeadPairs,
    pub attributes: AttributeList,
}

/// A request that is to be written, whose parts lie where they are: nothing of it is copied before it is written.
#[derive(Clone, Copy)]
pub struct ForwardParts<'a> {
    pub method: &'a [u8],
    pub protocol: &'a [u8],
    pub uri: &'a [u8],
    pub remote_addr: &'a [u8],
    pub remote_host: &'a [u8],
    pub server: &'a [u8],
    pub port: u16,
    pub ssl: bool,
    pub headers: &'a [(Bytes, Bytes)],
    pub attributes: &'a [Attribute],
}

/// The parts of a request, which stay in it.
pub(crate) fn parts_of(forward: &Forward) -> ForwardParts<'_>
    ensures { told_by result ≡ forward.now }
{
    ForwardParts {
        method: forward.method.as_slice(),
        protocol: forward.protocol.as_slice(),
        uri: forward.uri.as_slice(),
        remote_addr: forward.remote_addr.as_slice(),
        remote_host: forward.remote_host.as_slice(),
        server: forward.server.as_slice(),
        port: forward.port,
        ssl: forward.ssl,
        headers: forward.headers.as_slice(),
        attributes: forward.attributes.as_slice(),
    }
}
