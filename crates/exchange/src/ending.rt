//! How an exchange ends, and what becomes of a request before that.

use ajp_talk::{TalkEnd, Told};
use http_out::Own;

/// How an exchange ended.
#[derive(Clone, Copy, PartialEq, Eq)]
pub enum ExchangeEnd {
    /// The client has the whole reply of this member.
    Done {
        member: u32,
        told: Told,
    },
    /// An answer of the connector's own was written.
    Own(u16),
    /// The member's reply broke off, or the body was found bad, after a byte was passed.
    Cut {
        member: u32,
        told: Told,
    },
    /// A read or a write of the client failed.
    ClientFault,
    /// The client's bytes ended within the body.
    Truncated,
    /// The ticket that came back was not out.
    Stray {
        ticket: u64,
        returned_at: Option<u64>,
    },
    NoMemory,
}

/// What was done on a member while its lease was held. `bytes` are what its talks sent and received, at most 2^44.
#[derive(Clone, Copy, PartialEq, Eq)]
pub enum Ran {
    /// The Forward Request exceeds what the member takes: there was no talk.
    TooLarge,
    /// Memory was wanted.
    Wanted { bytes: u64 },
    /// There was a talk; `end` is how the last one ended.
    Ended { end: TalkEnd, bytes: u64 },
}

/// What becomes of a request after a round.
#[derive(Clone, Copy, PartialEq, Eq)]
pub enum RoundVerdict {
    /// Another member is tried, and this one no more.
    Again { member: u32 },
    /// The client gets an answer of the connector's own.
    Answer(Own),
    End(ExchangeEnd),
}
