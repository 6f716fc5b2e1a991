//! CPing, and CPong that must answer it.

ghost use Rattle.std.specs.Prelude.{◌≡◌, ◌<◌, true, [], IsOk};
ghost use Rattle.ajp_wire.specs.Moments.{link_at};
ghost use Rattle.ajp_talk.specs.Awaits.{IsAwaitedAfter};
ghost use Rattle.ajp_talk.specs.Moments.{KeepsLink};
ghost use Rattle.ajp_talk.specs.Owed.{ping_of};
ghost use Rattle.ajp_talk.specs.Turns.{IsGreeting, pong_only as pong_only_of};

use crate::awaiting::await_on;
use crate::messages::receive;
use crate::plan::TalkPlan;
use crate::room::Room;
use crate::sending::send;
use crate::turn::Unheard;
use ajp_reply::Message;
use jk_io::{Awaited, IoError, Link};

/// The packet of CPing.
const CPING: [u8; 5] = [0x12, 0x34, 0x00, 0x01, 0x0a];

/// Sends CPing, where the plan wants it, and reads CPong. The counts are those of the talk, which begins here.
pub(crate) fn greet<L: Link>(
    room: &mut Room,
    plan: &TalkPlan,
    line: &mut L,
    sent: &mut u64,
    received: &mut u64,
) -> Result<(), Unheard>
    requires some { 0 < plan.now.most }
    requires none_sent { sent.old ≡ 0 }
    requires none_received { received.old ≡ 0 }
    ensures greeting { IsGreeting plan.now (link_at L.Meanings line.old) (link_at L.Meanings line.new) sent.new received.new result }
    ensures keeps { KeepsLink L.Meanings line.old line.new }

    // Before a byte of it is read, the link is told how long CPong is waited for.
    ensures awaits { IsOk result → plan.now.ping ≡ true
        → IsAwaitedAfter L.Meanings L.heard line.old [] (ping_of plan.now) (Awaited.Pong plan.now.limits.pong) }
{
    if !plan.ping {
        return Ok(());
    }
    match send(line, &CPING, sent) {
        Ok(()) => {}
        Err(IoError::Failed) => return Err(Unheard::Line),
        Err(IoError::NoMemory) => return Err(Unheard::NoMemory),
    }
    await_on(
        line,
        Awaited::Pong {
            millis: plan.limits.pong,
        },
    );
    match receive(room, line, plan.packet, plan.most, received) {
        Ok(message) => pong_only(message),
        Err(why) => Err(why),
    }
}

/// The message must be CPong.
fn pong_only(message: Message) -> Result<(), Unheard>
    ensures { result ≡ pong_only_of message }
{
    match message {
        Message::Pong => Ok(()),
        Message::Headers(_) | Message::Chunk(_) | Message::End { .. } | Message::Ask(_) => {
            Err(Unheard::Wrong)
        }
    }
}
