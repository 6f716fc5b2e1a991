//! A request that is to be answered.
ghost use Rattle.std.specs.Prelude.{◌≡◌};
ghost use Rattle.client_session.specs.Requests.{kind_at, own_kind_at, visit_in};

use crate::requests::is_head;
use crate::session_site::SessionSite;
use http_front::Head;
use http_out::{OwnKind, RequestKind};
use httpdate::HttpDate;

/// A client's request, and the site that it is asked of.
#[derive(Clone, Copy)]
pub struct Inquiry<'a, 'b> {
    pub site: &'a SessionSite<'b>,
    pub head: &'a Head,
    /// No request follows it on the client's connection.
    pub last: bool,
    /// The moment that its answer tells where the container tells none; none where it tells none.
    pub date: Option<HttpDate>,
}

/// What decides the bytes of a page.
pub(crate) fn kind_of(of: &Inquiry) -> RequestKind
    ensures { result ≡ kind_at (visit_in of.now) of.now.head.now of.now.last }
{
    RequestKind {
        old: of.head.old,
        head_only: is_head(of.head),
        last: of.last,
        date: of.date,
    }
}

/// What decides the bytes of an own answer.
pub(crate) fn own_kind_of(of: &Inquiry) -> OwnKind
    ensures { result ≡ own_kind_at (visit_in of.now) of.now.head.now }
{
    OwnKind {
        head_only: is_head(of.head),
        date: of.date,
    }
}
