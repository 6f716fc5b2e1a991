//! One round: the desk is asked, talks are held, the lease goes back.
ghost use Rattle.std.specs.Prelude.{◌≡◌, ◌≤◌, ◌<◌, true, length, IfSome, IfOk, IfErr};
ghost use Rattle.lb_book.specs.Desks.{Chooses, KeepsDesk, holds, pair_of};
ghost use Rattle.exchange.specs.Awaits.{AwaitsRounds};
ghost use Rattle.exchange.specs.Requests.{ask_for, errand_of};
ghost use Rattle.exchange.specs.Keeping.{KeepsMeans, MayAsk, TookFirst};
ghost use Rattle.exchange.specs.Means.{scene_of};
ghost use Rattle.exchange.specs.Ends.{outcome_for};
ghost use Rattle.exchange.specs.Steps.{HandsLeaseBack, IsNoLease, IsStep};
ghost use Rattle.lb_model.specs.declared.journal.TheConstants.{MOST_BYTES};

use crate::ending::{ExchangeEnd, Ran, RoundVerdict};
use crate::request::Request;
use crate::sides::Means;
use crate::talks::run_talks;
use crate::target::{Target, target_of};
use crate::verdicts::{outcome_of, verdict_of};
use http_out::Own;
use jk_io::{Bytes, Clock, Link, Reach};
use lb_book::Desk;
use lb_book::desk::Choice;
use lb_model::{Ask, RoomError};
use std::alloc::Global;

/// Asks the desk for a member that wasn't tried. Where it gives none, what follows.
fn chosen<B: Desk>(
    request: &Request,
    ask: &Ask,
    at: u64,
    desk: &mut B,
) -> Result<(u32, B::Lease), RoundVerdict>
where
    B::Mark: Drop,
    requires lb { request.now.lb < length (B.state desk.old).sizes }
    requires caller { IfSome (B.state desk.old).caller (λ n. request.now.session ≡ n) }
    ensures ok { IfOk result (λ chosen. Chooses B.note (B.state desk.old) (B.state desk.new) request.now.lb request.now.session at ask.now
        (Choice.Chosen chosen.0 chosen.1)) }
    ensures err { IfErr result (IsNoLease B.note B.numbers (B.state desk.old) (B.state desk.new) request.now.lb request.now.session at ask.now) }
    ensures kept { KeepsDesk (B.state desk.old) (B.state desk.new) }
{
    match desk.choose(request.lb, request.session, at, ask) {
        Ok(Choice::Chosen { member, lease }) => Ok((member, lease)),
        Ok(Choice::NoMember) => Err(RoundVerdict::Answer(Own::ServiceUnavailable)),
        Ok(Choice::Forced) => Err(RoundVerdict::Answer(Own::InternalServerError)),
        Err(RoomError::Full(_)) => Err(RoundVerdict::Answer(Own::InternalServerError)),
        Err(RoomError::NoMemory) => Err(RoundVerdict::End(ExchangeEnd::NoMemory)),
    }
}

/// Hands the lease back, and tells what follows.
fn give_back<B: Desk>(
    request: &Request,
    to: &Target,
    lease: B::Lease,
    ran: Ran,
    at: u64,
    desk: &mut B,
) -> RoundVerdict
    requires caller { IfSome (B.state desk.old).caller (λ n. request.now.session ≡ n) }
    requires held { holds (B.state desk.old).held (pair_of (B.note lease)) ≡ true }
    requires bytes { (outcome_for to.now.endpoint.now ran).bytes ≤ MOST_BYTES }
    ensures back { HandsLeaseBack (B.state desk.old) (B.state desk.new) request.now.session at (B.note lease)
        to.now.endpoint.now request.now.head.now to.now.member ran result }
    ensures kept { KeepsDesk (B.state desk.old) (B.state desk.new) }
{
    match desk.hand_back(request.session, at, lease, outcome_of(to.endpoint, ran)) {
        Ok(()) => verdict_of(to.endpoint, request.head, to.member, ran),
        Err(stray) => RoundVerdict::End(ExchangeEnd::Stray {
            ticket: stray.ticket,
            returned_at: stray.returned_at,
        }),
    }
}

/// Asks the desk for a member that wasn't tried, holds talks on it and hands its lease back.
pub(crate) fn one_round<B: Desk, R: Reach, C: Link, K: Clock>(
    alloc: Global,
    request: &Request,
    first: &Bytes,
    ask: &Ask,
    fresh: bool,
    means: &mut Means<B, K, R, C>,
) -> RoundVerdict
where
    B::Mark: Drop,
    requires ask { ask.now ≡ ask_for (errand_of request.now) ask.now.tried }
    requires may { MayAsk B.state R.Meanings request.now means.old }
    requires first { TookFirst request.now first.now means.old.sides.body.now }
    ensures step { let at = scene_of B.state K.answers R.Meanings C.Meanings in
        IsStep (errand_of request.now) first.now ask.now.tried fresh (at means.old) (at means.new) result }
    ensures kept { KeepsMeans B.state R.Meanings C.Meanings request.now means.old means.new }
    ensures awaits { AwaitsRounds R.Meanings R.heard request.now means.old means.new }
{
    let at = means.clock.now();
    let (member, lease) = match chosen(request, ask, at, means.desk) {
        Ok(chosen) => chosen,
        Err(verdict) => return verdict,
    };
    let to = target_of(request, member);
    let ran = run_talks(alloc, request, first, &to, fresh, &mut means.sides);
    let back_at = means.clock.now();
    give_back(request, &to, lease, ran, back_at, means.desk)
}
