//! The plan of a talk, set before it begins.

use httpdate::HttpDate;
use jk_io::Bytes;
use lb_model::FailList;

/// How long a talk waits, in milliseconds; 0 is without limit.
#[derive(Clone, Copy, Debug, PartialEq, Eq)]
pub struct TalkLimits {
    /// For CPong.
    pub pong: u64,
    /// For each message of the container.
    pub reply: u64,
}

/// What a talk sends first, and by which rules it goes.
#[derive(Drop)]
pub struct TalkPlan {
    /// The packet of the Forward Request.
    pub forward: Bytes,
    /// The first piece of the request's body, which is sent right after it; no bytes where there is none.
    pub first: Bytes,
    /// The most bytes of a piece, 1 to 65,530.
    pub piece: u32,
    /// The most bytes of a packet of the container.
    pub packet: u32,
    /// The talk begins with CPing, which CPong must answer.
    pub ping: bool,
    /// The talk fails once it received this many bytes, 1 to 2^40.
    pub most: u64,
    /// The request is one of HTTP/1.0.
    pub old: bool,
    /// Its method is HEAD.
    pub head_only: bool,
    /// No request follows it on the client's connection.
    pub last: bool,
    /// The moment that its reply tells where the container's lines tell none.
    pub date: Option<HttpDate>,
    /// The link is closed as soon as a write to the client fails.
    pub close_on_client: bool,
    /// The statuses that count as a failure of the member.
    pub fail_on: FailList,
    /// How long it waits.
    pub limits: TalkLimits,
}
