//! Tests of a request: HEAD, a client that waits for 100 Continue, the last one of its session.
ghost use Rattle.std.specs.Prelude.{◌≡◌, ◌<◌};
ghost use Rattle.exchange.specs.Requests.{is_head as is_head_of};
ghost use Rattle.client_session.specs.Requests.{awaits_continue as is_awaited, has_body as has_body_by, is_last as is_last_of};

use http_front::{BodyPlan, Head};

/// The most requests of a session.
pub const MAX_REQUESTS: u32 = 1_000;

/// Whether the answer has a head alone.
pub(crate) fn is_head(head: &Head) -> bool
    ensures { result ≡ is_head_of head.now }
{
    head.method.as_slice() == b"HEAD".as_slice()
}

fn has_body(plan: BodyPlan) -> bool
    ensures { result ≡ has_body_by plan }
{
    match plan {
        BodyPlan::None => false,
        BodyPlan::Exact(_) | BodyPlan::Chunked => true,
    }
}

/// Whether the client waits for 100 Continue before it sends its body.
pub(crate) fn awaits_continue(head: &Head) -> bool
    ensures { result ≡ is_awaited head.now }
{
    head.expect && !head.old && has_body(head.plan)
}

/// Whether no request follows this one, before which `number` came.
pub(crate) fn is_last(number: u32, head: &Head) -> bool
    requires { number < MAX_REQUESTS }
    ensures { result ≡ is_last_of number head.now }
{
    head.old || head.close || number + 1 == MAX_REQUESTS
}
