//! The request of an exchange.
ghost use Rattle.std.specs.Prelude.{◌≡◌};
ghost use Rattle.exchange.specs.Requests.{errand_of, own_kind as own_kind_of};

use crate::methods::is_head;
use http_front::Head;
use http_out::OwnKind;
use httpdate::HttpDate;
use jk_io::Peer;
use lb_model::Terms;
use site_config::Lb;

/// A client's request, and the balancer where it is mounted.
#[derive(Clone, Copy)]
pub struct Request<'a> {
    pub head: &'a Head,
    pub peer: &'a Peer,
    /// No request follows it on the client's connection.
    pub last: bool,
    /// The moment that its answer tells where the container tells none; none where it tells none.
    pub date: Option<HttpDate>,
    pub session: u32,
    /// The place of the balancer in the configuration.
    pub lb: u32,
    pub balancer: &'a Lb,
    /// What the mount says.
    pub terms: Terms,
}

/// What decides the bytes of an own answer to the request.
pub(crate) fn own_kind(request: &Request) -> OwnKind
    ensures { result ≡ own_kind_of (errand_of request.now) }
{
    OwnKind {
        head_only: is_head(request.head),
        date: request.date,
    }
}
