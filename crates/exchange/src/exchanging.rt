//! `exchange_of`: a request, from the first piece of its body to what its client has.
ghost use Rattle.exchange.specs.Awaits.{AwaitsSides};
ghost use Rattle.exchange.specs.Clients.{GivesClient, MeetsThere};
ghost use Rattle.exchange.specs.Complete.{Completes};
ghost use Rattle.exchange.specs.Exchanges.{InEachExchange, IsExchange, NotesTalks, StaysCalm, UsesFront};
ghost use Rattle.exchange.specs.Keeping.{IsAllLeft, KeepsMeans, MayAsk};
ghost use Rattle.exchange.specs.Means.{scene_of};
ghost use Rattle.exchange.specs.Requests.{errand_of};
ghost use Rattle.exchange.specs.WholeTalks.{GoesWholeOnce};

use crate::ending::{ExchangeEnd, RoundVerdict};
use crate::first_piece::take_first;
use crate::own::write_own;
use crate::planning::ask_of;
use crate::request::{Request, own_kind};
use crate::rounds::one_round;
use crate::sides::Means;
use crate::tried::with_member;
use jk_io::{Clock, Link, NoMemory, Reach};
use lb_book::Desk;
use std::alloc::Global;

/// Sends a request to members of its balancer until its client has an answer, or is to have none.
///
/// No talk of the reach runs before the call or after it, and the desk then holds the tickets that it held before.
/// Nothing was taken of the body, which is that of the head's plan.
pub fn exchange_of<B: Desk, R: Reach, C: Link, K: Clock>(
    alloc: Global,
    request: &Request,
    means: &mut Means<B, K, R, C>,
) -> ExchangeEnd
where
    B::Mark: Drop,
    requires may { MayAsk B.state R.Meanings request.now means.old }
    requires whole { IsAllLeft request.now.head.now.plan means.old.sides.body.now }

    // The rounds that were gone through, and how the last one ended.
    ensures exchange { let at = scene_of B.state K.answers R.Meanings C.Meanings in
        IsExchange (errand_of request.now) (at means.old) (at means.new) result }

    // Each exchange that ends so: what the client has; where each member has option 1 and neither 8 nor 16 the request is sent
    // whole at most once; and where the first link has a whole reply to come and nothing fails, the client has it after that
    // one talk. The client's bytes are used from the front.
    ensures client { InEachExchange (errand_of request.now) result GivesClient }
    ensures whole_once { InEachExchange (errand_of request.now) result GoesWholeOnce }
    ensures complete { InEachExchange (errand_of request.now) result Completes }
    ensures used { InEachExchange (errand_of request.now) result UsesFront }
    ensures noted { InEachExchange (errand_of request.now) result NotesTalks }

    // A stray was met where it is the end, and there alone; the client's count of faults stands, unless it or a stray is the end.
    ensures met { InEachExchange (errand_of request.now) result MeetsThere }
    ensures calm { InEachExchange (errand_of request.now) result StaysCalm }

    // The client is told before its body is read that more of it is waited for, and the reach before each talk how long a dial
    // of the member may take.
    ensures awaits { AwaitsSides R.Meanings R.heard C.heard request.now means.old means.new }

    // Desk, clock and sides are still the caller's own, and each lease went back.
    ensures kept { KeepsMeans B.state R.Meanings C.Meanings request.now means.old means.new }
{
    let mut ask = match ask_of(alloc, request) {
        Ok(ask) => ask,
        Err(NoMemory) => return ExchangeEnd::NoMemory,
    };
    let sides = &mut means.sides;
    let first = match take_first(
        alloc,
        request.head.plan,
        &request.balancer.ends,
        sides.body,
        sides.inbox,
        sides.client,
    ) {
        Ok(first) => first,
        Err(end) => return end,
    };
    let first = &first;
    let mut fresh = false;
    loop {
        match one_round(alloc, request, first, &ask, fresh, means) {
            RoundVerdict::Again { member } => {
                ask.tried = with_member(ask.tried, member);
                fresh = true;
            }
            RoundVerdict::Answer(own) => {
                return write_own(own, own_kind(request), means.sides.client);
            }
            RoundVerdict::End(end) => return end,
        }
    }
}
