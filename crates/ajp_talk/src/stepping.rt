//! One message of the container, and what it asks for.

ghost use Rattle.std.specs.Prelude.{◌≡◌, None};
ghost use Rattle.http_front.specs.State.{failed_of};
ghost use Rattle.ajp_talk.specs.Moments.{KeepsLink};
ghost use Rattle.ajp_talk.specs.Ends.{IsPlan};
ghost use Rattle.ajp_talk.specs.Turns.{IsCalmTurn, IsOnCourse, IsTurn};
ghost use Rattle.ajp_talk.specs.Uploads.{IsSameUpload, talk_over};

use crate::body_piece::{answer_ask, wanted};
use crate::course::Course;
use crate::ending::Cause;
use crate::messages::receive;
use crate::plan::TalkPlan;
use crate::room::Room;
use crate::turn::{Turn, turn_of};
use crate::upload::Upload;
use ajp_reply::Message;
use jk_io::Link;

/// Reads the next message and does what it asks for.
pub(crate) fn step<L: Link, C: Link>(
    room: &mut Room,
    plan: &TalkPlan,
    course: &mut Course,
    upload: &mut Upload,
    line: &mut L,
    client: &mut C,
) -> Turn
    requires plan { IsPlan plan.now }
    requires course { IsOnCourse course.old }
    requires going { failed_of upload.old.body.now ≡ None }
    ensures turn { let at = talk_over L.Meanings C.Meanings in
        IsTurn plan.now (at line.old client.old upload.old) (at line.new client.new upload.new) course.old course.new result }
    ensures keeps { KeepsLink L.Meanings line.old line.new × KeepsLink C.Meanings client.old client.new }
    ensures calm { IsCalmTurn result → C.faults client.new ≡ C.faults client.old }
    ensures same { IsSameUpload upload.old upload.new }
{
    match receive(room, line, plan.packet, plan.most, &mut course.received) {
        Ok(Message::Headers(parts)) => course.take_head(plan, parts),
        Ok(Message::Chunk(bytes)) => {
            let turn = course.take_chunk(plan, bytes.as_slice(), client);
            room.reuse(bytes);
            turn
        }
        Ok(Message::Ask(n)) => answer_ask(
            room.alloc,
            wanted(plan.piece, n),
            upload,
            line,
            client,
            &mut course.sent,
        ),
        Ok(Message::End { reuse }) => course.finish(reuse, client),
        Ok(Message::Pong) => Turn::Failed(Cause::BadReply),
        Err(why) => turn_of(why),
    }
}
