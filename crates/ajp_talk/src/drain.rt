//! The rest of a reply whose client is gone.

ghost use Rattle.std.specs.Prelude.{◌≡◌, ◌<◌};
ghost use Rattle.ajp_wire.specs.Moments.{link_at};
ghost use Rattle.ajp_talk.specs.Moments.{KeepsLink};
ghost use Rattle.ajp_talk.specs.Ends.{IsPlan};
ghost use Rattle.ajp_talk.specs.Turns.{IsOnCourse};
ghost use Rattle.ajp_talk.specs.Drains.{IsLostCourse, IsDrained, IsDrop, IsDroppedMessage, rest_after as rest_after_of, rest_without as rest_without_of};

use crate::course::Course;
use crate::messages::receive;
use crate::plan::TalkPlan;
use crate::room::Room;
use crate::turn::{Turn, Unheard};
use ajp_reply::Message;
use jk_io::{Link, NoMemory, Sink};

/// Reads on to the end of the reply and drops what it reads. True where the reply came whole and lets the link serve
/// again; false at a failure or an ask.
pub(crate) fn drain<L: Link, C: Sink>(
    room: &mut Room,
    plan: &TalkPlan,
    course: &mut Course,
    line: &mut L,
    client: &mut C,
) -> Result<bool, NoMemory>
    requires plan { IsPlan plan.now }
    requires lost { IsLostCourse course.old }
    requires below { course.old.received < plan.now.most }
    ensures drained { IsDrained plan.now (link_at L.Meanings line.old) (link_at L.Meanings line.new) (link_at C.Meanings client.old) (link_at C.Meanings client.new) course.old course.new result }
    ensures incoming { C.incoming client.new ≡ C.incoming client.old }
    ensures keeps { KeepsLink L.Meanings line.old line.new × KeepsLink C.Meanings client.old client.new }
{
    loop {
        match drop_next(room, plan, course, line, client) {
            Ok(None) => {}
            Ok(Some(keep)) => return Ok(keep),
            Err(NoMemory) => return Err(NoMemory),
        }
    }
}

/// Reads one message and drops it. None where more is to be dropped.
fn drop_next<L: Link, C: Sink>(
    room: &mut Room,
    plan: &TalkPlan,
    course: &mut Course,
    line: &mut L,
    client: &mut C,
) -> Result<Option<bool>, NoMemory>
    requires { IsOnCourse course.old }
    ensures dropped { IsDrop plan.now (link_at L.Meanings line.old) (link_at L.Meanings line.new) (link_at C.Meanings client.old) (link_at C.Meanings client.new) course.old course.new result }
    ensures incoming { C.incoming client.new ≡ C.incoming client.old }
    ensures keeps { KeepsLink L.Meanings line.old line.new × KeepsLink C.Meanings client.old client.new }
{
    match receive(room, line, plan.packet, plan.most, &mut course.received) {
        Ok(message) => drop_message(room, plan, course, message, client),
        Err(why) => rest_without(why),
    }
}

/// Counts a chunk, ends the reply at its end, and looks at no other message.
fn drop_message<C: Sink>(
    room: &mut Room,
    plan: &TalkPlan,
    course: &mut Course,
    message: Message,
    client: &mut C,
) -> Result<Option<bool>, NoMemory>
    requires { IsOnCourse course.old }
    ensures dropped { IsDroppedMessage plan.now message course.old course.new (link_at C.Meanings client.old) (link_at C.Meanings client.new) result }
    ensures incoming { C.incoming client.new ≡ C.incoming client.old }
    ensures keeps { KeepsLink C.Meanings client.old client.new }
{
    match message {
        Message::Chunk(bytes) => {
            let turn = course.take_chunk(plan, bytes.as_slice(), client);
            room.reuse(bytes);
            rest_after(turn)
        }
        Message::End { reuse } => rest_after(course.finish(reuse, client)),
        Message::Headers(_) | Message::Ask(_) | Message::Pong => Ok(Some(false)),
    }
}

/// None where more is to be dropped after a turn; else whether the link may serve again.
fn rest_after(turn: Turn) -> Result<Option<bool>, NoMemory>
    ensures { result ≡ rest_after_of (record {}) turn }
{
    match turn {
        Turn::On | Turn::Lost => Ok(None),
        Turn::Done { reuse } | Turn::LostAtEnd { reuse } => Ok(Some(reuse)),
        Turn::Failed(_) | Turn::Unread | Turn::Cut | Turn::Bad(_) => Ok(Some(false)),
        Turn::NoMemory => Err(NoMemory),
    }
}

/// Where no message came the link is to be closed.
fn rest_without(why: Unheard) -> Result<Option<bool>, NoMemory>
    ensures { result ≡ rest_without_of (record {}) why }
{
    match why {
        Unheard::Line | Unheard::Ended | Unheard::Wrong | Unheard::TooLong => Ok(Some(false)),
        Unheard::NoMemory => Err(NoMemory),
    }
}
