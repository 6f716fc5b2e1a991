//! `talk`: one try of a request on one link, from its first byte to its end.

ghost use Rattle.std.specs.Prelude.{◌≡◌, ◌<◌, None, IfSome, length};
ghost use Rattle.http_front.specs.State.{failed_of, taken_of};
ghost use Rattle.ajp_wire.specs.Moments.{link_at};
ghost use Rattle.ajp_talk.specs.Awaits.{AwaitsReply, HasHeard};
ghost use Rattle.ajp_talk.specs.Complete.{Completes};
ghost use Rattle.ajp_talk.specs.Courses.{BeginsCourse, fresh};
ghost use Rattle.ajp_talk.specs.Drains.{IsLostCourse, IsLostEnd};
ghost use Rattle.ajp_talk.specs.Ends.{IsPlan};
ghost use Rattle.ajp_talk.specs.Moments.{KeepsLink, talk_at};
ghost use Rattle.ajp_talk.specs.Talk.{HoldsTalk};

use crate::awaiting::await_on;
use crate::concluding::unanswered;
use crate::course::Course;
use crate::cping::greet;
use crate::drain::drain;
use crate::ending::{Cause, TalkEnd};
use crate::plan::TalkPlan;
use crate::request::send_request;
use crate::room::Room;
use crate::stepping::step;
use crate::turn::Turn;
use crate::upload::Upload;
use http_front::{BodyIn, Inbox};
use jk_io::{Awaited, IoError, Link, NoMemory, Sink};
use std::alloc::Global;

/// Sends the request over a link, answers the container's asks from the body, and passes its reply on to the client.
/// Before the call exactly the plan's first piece was taken of `body`, and no call of it was refused.
pub fn talk<L: Link, C: Link>(
    alloc: Global,
    plan: &TalkPlan,
    body: &mut BodyIn,
    inbox: &mut Inbox,
    line: &mut L,
    client: &mut C,
) -> Result<TalkEnd, NoMemory>
    requires plan { IsPlan plan.now }
    requires first { taken_of body.old ≡ length plan.now.first }
    requires going { failed_of body.old ≡ None }

    // How it ended, by what came and went on the link, at the client and of the body; and whose faults rose.
    ensures talk { let at = talk_at L.Meanings C.Meanings in
        HoldsTalk plan.now (at line.old client.old body.old inbox.old) (at line.new client.new body.new inbox.new) result }

    // Where a whole reply comes and nothing fails, the client has it.
    ensures complete { let at = talk_at L.Meanings C.Meanings in
        Completes plan.now (at line.old client.old body.old inbox.old) (at line.new client.new body.new inbox.new) result }

    ensures beside { (L.beside line.new ≡ L.beside line.old) × (C.beside client.new ≡ C.beside client.old) }

    // Before a byte of CPong, and then of the reply, is read, the link is told how long it is waited for.
    ensures awaits { HasHeard result → AwaitsReply L.Meanings L.heard plan.now line.old }
{
    let mut room = Room::new(alloc);
    let mut course = Course::new(alloc, plan, 0, 0);
    let mut upload = Upload { body, inbox };
    match begin(&mut room, plan, &mut course, line) {
        None => {}
        Some(end) => return end,
    }
    loop {
        match step(&mut room, plan, &mut course, &mut upload, line, client) {
            Turn::On => {}
            Turn::Lost => return Ok(lost(&mut room, plan, &mut course, line, client)),
            turn => return course.ended(plan, upload.body.taken(), turn),
        }
    }
}

/// Greets the container and sends it the request. None where that went well, and its reply is waited for.
fn begin<L: Link>(
    room: &mut Room,
    plan: &TalkPlan,
    course: &mut Course,
    line: &mut L,
) -> Option<Result<TalkEnd, NoMemory>>
    requires plan { IsPlan plan.now }
    requires begun { course.old ≡ fresh plan.now 0 0 }
    ensures begins { BeginsCourse plan.now (link_at L.Meanings line.old) (link_at L.Meanings line.new) course.new result }
    ensures keeps { KeepsLink L.Meanings line.old line.new }

    // The last that the link was told is how long the reply is waited for.
    ensures awaits { result ≡ None → AwaitsReply L.Meanings L.heard plan.now line.old }
    ensures last { result ≡ None → (before : L) × L.heard before (Awaited.Reply plan.now.limits.reply) line.new }
    ensures unheard { IfSome result (λ end. HasHeard end → ⊥) }
{
    match greet(room, plan, line, &mut course.sent, &mut course.received) {
        Ok(()) => {}
        Err(why) => return Some(unanswered(course.sent, course.received, why)),
    }
    match send_request(room.alloc, plan, line, &mut course.sent) {
        Ok(()) => {
            await_on(
                line,
                Awaited::Reply {
                    millis: plan.limits.reply,
                },
            );
            None
        }
        Err(IoError::Failed) => Some(Ok(course.failed(plan, plan.first.len() as u64, Cause::Line))),
        Err(IoError::NoMemory) => Some(Err(NoMemory)),
    }
}

/// The end where a write to the client failed before the reply's end. Where memory is wanted for the rest the link is closed.
fn lost<L: Link, C: Sink>(
    room: &mut Room,
    plan: &TalkPlan,
    course: &mut Course,
    line: &mut L,
    client: &mut C,
) -> TalkEnd
    requires plan { IsPlan plan.now }
    requires lost { IsLostCourse course.old }
    requires below { course.old.received < plan.now.most }
    ensures ended { IsLostEnd plan.now (link_at L.Meanings line.old) (link_at L.Meanings line.new) (link_at C.Meanings client.old) (link_at C.Meanings client.new) course.old course.new result }
    ensures incoming { C.incoming client.new ≡ C.incoming client.old }
    ensures keeps { KeepsLink L.Meanings line.old line.new × KeepsLink C.Meanings client.old client.new }
{
    if plan.close_on_client {
        return course.gone(false, false);
    }
    match drain(room, plan, course, line, client) {
        Ok(keep) => course.gone(false, keep),
        Err(NoMemory) => course.gone(false, false),
    }
}
