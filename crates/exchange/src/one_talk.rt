//! One talk with a member: a link is had, the talk is held on it, and the link is kept or closed.
ghost use Rattle.std.specs.Prelude.{◌≡◌};
ghost use Rattle.ajp_talk.specs.Awaits.{HasHeard};
ghost use Rattle.ajp_talk.specs.Ends.{IsPlan};
ghost use Rattle.exchange.specs.Awaits.{AwaitsBegun, HearsNext};
ghost use Rattle.exchange.specs.Keeping.{KeepsSides, MayTalk};
ghost use Rattle.exchange.specs.Means.{around_of};
ghost use Rattle.exchange.specs.OneTalk.{IsOneTalk, IsPlanOf, dial_for, keeps as keeps_link, no_link as end_without_link, pings as pings_first, pong_limit as pong_limit_for};

use crate::sides::Sides;
use crate::target::Target;
use ajp_reply::Stage;
use ajp_talk::{Cause, TalkEnd, TalkPlan, talk};
use jk_io::{Awaited, IoError, Link, NoMemory, Reach, TalkAsked};
use site_config::Endpoint;
use std::alloc::Global;

/// Holds one talk with a member, on a newly dialled link where `fresh` is true.
pub(crate) fn one_talk<R: Reach, C: Link>(
    alloc: Global,
    lb: u32,
    to: &Target,
    plan: &mut TalkPlan,
    fresh: bool,
    sides: &mut Sides<R, C>,
) -> Result<TalkEnd, NoMemory>
    requires may { MayTalk R.Meanings lb to.now.member plan.now.first sides.old }
    requires plan { IsPlan plan.now }
    ensures talk { let at = around_of R.Meanings C.Meanings in
        IsOneTalk lb to.now.member to.now.endpoint.now plan.entry.now fresh (at sides.old) (at sides.new) result }
    ensures plan { IsPlanOf plan.entry.now plan.exit.now }
    ensures kept { KeepsSides R.Meanings C.Meanings sides.old sides.new }

    // Before it begins, the reach is told how long a dial of this member may take.
    ensures awaits { HearsNext R.heard sides.old.reach.now (dial_for to.now.endpoint.now) }

    // Once it is begun its link is told how long CPong and the reply are waited for, before a byte of either is read.
    ensures heard { HasHeard result → AwaitsBegun R.Meanings R.heard plan.entry.now to.now.endpoint.now }
{
    let endpoint = to.endpoint;
    sides.reach.await_next(dial_of(endpoint));
    let asked = TalkAsked {
        lb,
        member: to.member,
        host: &endpoint.host,
        port: endpoint.port,
        fresh,
    };
    let dialled = match sides.reach.begin(alloc, &asked) {
        Ok(dialled) => dialled,
        Err(IoError::Failed) => return Ok(no_link()),
        Err(IoError::NoMemory) => return Err(NoMemory),
    };
    plan.ping = pings(endpoint, dialled);
    plan.limits.pong = pong_limit(endpoint, dialled);
    let end = talk(
        alloc,
        plan,
        sides.body,
        sides.inbox,
        sides.reach,
        sides.client,
    );
    sides.reach.finish(keeps(&end));
    end
}

fn pings(endpoint: &Endpoint, dialled: bool) -> bool
    ensures { result ≡ pings_first endpoint.now dialled }
{
    endpoint.ping_each || (endpoint.ping_new && dialled)
}

/// How long CPong is waited for.
fn pong_limit(endpoint: &Endpoint, dialled: bool) -> u64
    ensures { result ≡ pong_limit_for endpoint.now dialled }
{
    if endpoint.ping_new && dialled {
        endpoint.limits.first_pong()
    } else {
        endpoint.limits.each_pong()
    }
}

/// How long a dial may take.
fn dial_of(endpoint: &Endpoint) -> Awaited
    ensures { result ≡ dial_for endpoint.now }
{
    Awaited::Link {
        millis: endpoint.limits.dial(),
        keepalive: endpoint.limits.keeps_alive(),
    }
}

fn keeps(end: &Result<TalkEnd, NoMemory>) -> bool
    ensures { result ≡ keeps_link end.now }
{
    match end {
        Ok(TalkEnd::Done { reuse, .. }) => *reuse,
        Ok(TalkEnd::ClientGone { keep, .. }) => *keep,
        Ok(TalkEnd::Failed { .. } | TalkEnd::BadBody { .. }) | Err(NoMemory) => false,
    }
}

fn no_link() -> TalkEnd
    ensures { result ≡ end_without_link }
{
    TalkEnd::Failed {
        stage: Stage {
            got: false,
            headers: false,
            passed: false,
            beyond: false,
        },
        cause: Cause::NoLink,
        told: None,
        bytes: 0,
    }
}
