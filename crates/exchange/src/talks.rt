//! The talks of one round.
ghost use Rattle.std.specs.Prelude.{◌≡◌, ◌+◌, ◌≤◌, length, min};
ghost use Rattle.forwarding.specs.FirstPiece.{piece_for};
ghost use Rattle.exchange.specs.Awaits.{AwaitsMember};
ghost use Rattle.exchange.specs.Keeping.{KeepsSides, MayTalk};
ghost use Rattle.exchange.specs.Means.{around_of};
ghost use Rattle.exchange.specs.Requests.{errand_of};
ghost use Rattle.exchange.specs.Talks.{HasRun};
ghost use Rattle.exchange.specs.Ends.{bytes_of as bytes_in};

use crate::ending::Ran;
use crate::one_talk::one_talk;
use crate::planning::plan_for;
use crate::request::Request;
use crate::sides::Sides;
use crate::target::Target;
use crate::verdicts::{bytes_of, tries_again};
use ajp_talk::TalkEnd;
use ajp_wire::EncodeError;
use jk_io::{Bytes, Link, NoMemory, Reach};
use lb_model::MOST_BYTES;
use std::alloc::Global;

/// The bytes so far and those of one more talk.
fn with_talk(bytes: u64, end: TalkEnd) -> u64
    ensures { result ≡ min (bytes + bytes_in end) MOST_BYTES }
{
    bytes.saturating_add(bytes_of(end)).min(MOST_BYTES)
}

/// Makes the Forward Request for a member, and holds talks on it until one doesn't fail, or none may follow it. The first
/// one is on a newly dialled link where `fresh` is true, and each further one is.
pub(crate) fn run_talks<R: Reach, C: Link>(
    alloc: Global,
    request: &Request,
    first: &Bytes,
    to: &Target,
    fresh: bool,
    sides: &mut Sides<R, C>,
) -> Ran
    requires may { MayTalk R.Meanings request.now.lb to.now.member first.now sides.old }
    requires short { length first.now ≤ piece_for to.now.endpoint.now }
    ensures ran { let at = around_of R.Meanings C.Meanings in
        HasRun (errand_of request.now) first.now to.now.member to.now.config.now to.now.endpoint.now fresh (at sides.old) (at sides.new) result }
    ensures kept { KeepsSides R.Meanings C.Meanings sides.old sides.new }

    // Before each talk the reach is told how long a dial of the member may take.
    ensures awaits { AwaitsMember R.Meanings R.heard request.now to.now sides.old.reach.now sides.new.reach.now }
{
    let mut plan = match plan_for(alloc, request, first, to.config, to.endpoint) {
        Ok(plan) => plan,
        Err(EncodeError::TooLarge) => return Ran::TooLarge,
        Err(EncodeError::NoMemory) => return Ran::Wanted { bytes: 0 },
    };
    let mut fresh_link = fresh;
    let mut bytes = 0;
    let mut left = to.endpoint.retries;
    loop {
        let end = match one_talk(alloc, request.lb, to, &mut plan, fresh_link, sides) {
            Ok(end) => end,
            Err(NoMemory) => return Ran::Wanted { bytes },
        };
        bytes = with_talk(bytes, end);
        if !tries_again(to.endpoint, request.head, end) {
            return Ran::Ended { end, bytes };
        }
        left -= 1;
        if left == 0 {
            return Ran::Ended { end, bytes };
        }
        fresh_link = true;
    }
}
