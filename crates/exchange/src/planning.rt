//! The ask of a request to its balancer, and the plan of a member's talks.
ghost use Rattle.std.specs.Prelude.{◌≡◌, ◌≤◌, length, IfOk, OnOk, Err};
ghost use Rattle.ajp_request.specs.Writing.{FitsForward};
ghost use Rattle.ajp_talk.specs.Ends.{IsPlan};
ghost use Rattle.forwarding.specs.FirstPiece.{piece_for};
ghost use Rattle.exchange.specs.Requests.{ask_for, errand_of, forward_to, ids_in, is_none_there, plan_for as plan_of, route_in};

use crate::methods::is_head;
use crate::request::Request;
use ajp_talk::{TalkLimits, TalkPlan};
use ajp_wire::EncodeError;
use forwarding::{IdList, RecoveryOption, forward_packet, piece_of, routed, session_ids};
use jk_io::{Bytes, NoMemory};
use lb_model::{Ask, MemberConfig};
use site_config::Endpoint;
use std::alloc::Global;

/// A talk fails once it received this many bytes.
const MOST_RECEIVED: u64 = 1 << 40;

/// What a balancer is asked for a request before any member was tried.
pub(crate) fn ask_of(alloc: Global, request: &Request) -> Result<Ask, NoMemory>
    ensures { IfOk result (λ ask. ask ≡ ask_for (errand_of request.now) 0) }
{
    let ids = session_ids(
        alloc,
        request.head,
        request.balancer.cookie.as_slice(),
        request.balancer.path.as_slice(),
    )?;
    Ok(Ask {
        routed: route_of(request, &ids),
        fresh: ids.is_empty(),
        tried: 0,
        disabled: request.terms.disabled,
        stopped: request.terms.stopped,
    })
}

fn route_of(request: &Request, ids: &IdList) -> Option<u32>
    requires { ids.now ≡ ids_in (errand_of request.now) }
    ensures { result ≡ route_in (errand_of request.now) }
{
    if request.terms.sticky_ignore {
        return None;
    }
    routed(ids, &request.balancer.book.members)
}

/// How the talks with a member go, after a first piece that fits a packet for it.
pub(crate) fn plan_for(
    alloc: Global,
    request: &Request,
    first: &Bytes,
    config: &MemberConfig,
    endpoint: &Endpoint,
) -> Result<TalkPlan, EncodeError>
    requires { length first.now ≤ piece_for endpoint.now }
    ensures value { IfOk result (λ plan. plan ≡ plan_of (errand_of request.now) first.now config.now endpoint.now) }
    ensures plan { IfOk result IsPlan }
    ensures fits { OnOk result (FitsForward endpoint.now.packet (forward_to (errand_of request.now) config.now endpoint.now)) }
    ensures too_large { result ≡ Err EncodeError.TooLarge
        → FitsForward endpoint.now.packet (forward_to (errand_of request.now) config.now endpoint.now) → ⊥ }
{
    let forward = forward_packet(
        alloc,
        request.head,
        request.peer,
        request.balancer.book.direct,
        config,
        endpoint,
    )?;
    Ok(TalkPlan {
        forward,
        first: first.copy()?,
        piece: piece_of(endpoint),
        packet: endpoint.packet,
        ping: false,
        most: MOST_RECEIVED,
        old: request.head.old,
        head_only: is_head(request.head),
        last: request.last,
        date: request.date,
        close_on_client: RecoveryOption::CloseWithClient.is_on(endpoint.recovery),
        fail_on: endpoint.fail_on.copy()?,
        limits: TalkLimits {
            pong: 0,
            reply: endpoint.limits.reply(request.terms.reply_timeout),
        },
    })
}
