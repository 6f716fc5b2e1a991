//! The turns that the messages of a container give to a talk.

ghost use Rattle.std.specs.Prelude.{◌≡◌};
ghost use Rattle.ajp_talk.specs.Turns.{turn_of as turn_for, fault_turn as turn_by};

use crate::ending::Cause;
use http_front::BodyFault;
use http_out::Own;

/// What became of a talk with one more message.
#[derive(Clone, Copy, PartialEq, Eq)]
pub(crate) enum Turn {
    /// It goes on.
    On,
    /// End Response came, and the client has the whole reply.
    Done { reuse: bool },
    Failed(Cause),
    /// A write to the client failed before the end.
    Lost,
    /// The last write to the client failed.
    LostAtEnd { reuse: bool },
    /// A read of the body failed.
    Unread,
    /// The client's bytes ended within the body.
    Cut,
    /// The body is bad; this answer says how.
    Bad(Own),
    NoMemory,
}

/// Why no message came.
#[derive(Clone, Copy, PartialEq, Eq)]
pub(crate) enum Unheard {
    /// The link failed.
    Line,
    /// The container's bytes ended.
    Ended,
    /// The bytes that came begin no message.
    Wrong,
    /// The bytes that came reached the limit.
    TooLong,
    NoMemory,
}

pub(crate) fn turn_of(unheard: Unheard) -> Turn
    ensures { result ≡ turn_for unheard }
{
    match unheard {
        Unheard::Line => Turn::Failed(Cause::Line),
        Unheard::Ended => Turn::Failed(Cause::Ended),
        Unheard::Wrong => Turn::Failed(Cause::BadReply),
        Unheard::TooLong => Turn::Failed(Cause::TooLong),
        Unheard::NoMemory => Turn::NoMemory,
    }
}

/// What a body that can't be taken further makes of a talk.
pub(crate) fn fault_turn(fault: BodyFault) -> Turn
    ensures { result ≡ turn_by fault }
{
    match fault {
        BodyFault::Truncated => Turn::Cut,
        BodyFault::BadChunk => Turn::Bad(Own::BadRequest),
        BodyFault::TooLong => Turn::Bad(Own::ContentTooLarge),
        BodyFault::Fault => Turn::Unread,
        BodyFault::NoMemory => Turn::NoMemory,
    }
}
