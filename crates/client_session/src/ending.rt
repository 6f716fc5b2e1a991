//! How a session ends.
ghost use Rattle.std.specs.Prelude.{◌≡◌};
ghost use Rattle.client_session.specs.Ends.{end_of};

use status_worker::PageRefusal;

/// Why a session that nothing disturbed came to its end.
#[derive(Clone, Copy, Debug, PartialEq, Eq)]
pub enum Why {
    /// The client's bytes ended between two requests.
    ByClient,
    /// Nothing of a next request was there yet, and reading on would wait: the client may be served again later.
    Idle,
    /// The request was the last one: of HTTP/1.0, with `Connection: close`, or the 1,000th.
    Last,
    /// An answer of the connector's own was written, with this status.
    Own(u16),
    /// A status worker refused the request, and its answer says so.
    Refused(PageRefusal),
    /// A talk failed, or the client's body was bad, after a byte of the reply was passed.
    Cut,
    /// The rest of a body, after a reply or a page, was bad or too long.
    Unread,
}

/// Why no further request is read.
#[derive(Clone, Copy, Debug, PartialEq, Eq)]
pub enum SessionStop {
    Closed(Why),
    /// A read or a write of the client failed.
    ClientFault,
    /// The client's bytes ended within a head or a body.
    Truncated,
    /// A ticket that came back was not out.
    Stray {
        ticket: u64,
        returned_at: Option<u64>,
    },
    NoMemory,
}

/// How a session ended. `requests` counts the complete replies and pages.
#[derive(Clone, Copy, Debug, PartialEq, Eq)]
pub struct SessionEnd {
    pub requests: u32,
    pub stop: SessionStop,
}

impl SessionStop {
    ghost use Rattle.std.specs.Prelude.{◌≡◌};
    ghost use Rattle.client_session.specs.Ends.{end_of};

    /// The session's end, after this many complete replies and pages.
    pub(crate) fn after(self, requests: u32) -> SessionEnd
        ensures { result ≡ end_of self requests }
    {
        SessionEnd {
            requests,
            stop: self,
        }
    }
}
