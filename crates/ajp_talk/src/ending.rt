//! How a talk ends.

use ajp_reply::Stage;

/// Why a talk failed.
#[derive(Clone, Copy, Debug, PartialEq, Eq)]
pub enum Cause {
    /// No link could be had. No talk answers this: it is for whoever asks for the link.
    NoLink,
    /// A read or a write of the link failed.
    Line,
    /// The container's bytes ended.
    Ended,
    /// The bytes that came are no reply, however they go on, or CPong didn't answer CPing.
    BadReply,
    /// The chunks don't agree with the length that the head announced.
    Disagree,
    /// The bytes that came reached the limit.
    TooLong,
    /// The reply's status counts as a failure of the member.
    Status(u16),
}

/// What is told of a reply that was passed on.
#[derive(Clone, Copy, Debug, PartialEq, Eq)]
pub struct Told {
    pub status: u16,
    /// The bytes of all chunks that were passed.
    pub body: u64,
}

/// How a talk ended. `bytes` counts all that it sent and received. `told` is None where no byte of the reply was written
/// to the client.
#[derive(Clone, Copy, Debug, PartialEq, Eq)]
pub enum TalkEnd {
    /// The client has the whole reply. `reuse`: the link may serve again.
    Done {
        told: Told,
        reuse: bool,
        bytes: u64,
    },
    Failed {
        stage: Stage,
        cause: Cause,
        told: Option<Told>,
        bytes: u64,
    },
    /// `truncated`: its bytes ended within the body; else a read or a write of it failed. `keep`: the link may serve again.
    ClientGone {
        truncated: bool,
        keep: bool,
        bytes: u64,
    },
    /// The body has a bad chunk line, 400, or its data reached its limit, 413.
    BadBody {
        status: u16,
        told: Option<Told>,
        passed: bool,
        bytes: u64,
    },
}
