//! `Head`: a request's head with all that the layers above ask of it.
use crate::head_lines::HeadLines;
use jk_io::Bytes;
use std::alloc::Global;

/// How a request's body is framed (RFC 9112, section 6).
#[derive(Clone, Copy, PartialEq, Eq)]
pub enum BodyPlan {
    /// No body: neither framing stands in the head, or a Content-Length of 0.
    None,
    /// By Content-Length: this many bytes, at least one and below 2^40.
    Exact(u64),
    /// By chunks.
    Chunked,
}

/// A request's head.
#[derive(Drop)]
pub struct Head {
    /// The method, as the client wrote it.
    pub method: Bytes,
    /// The request target whole.
    pub target: Bytes,
    /// The raw path: the target up to its first `?`.
    pub path: Bytes,
    /// What follows that `?`, where the target has one.
    pub query: Option<Bytes>,
    /// The clean path, which mount rules look at.
    pub clean: Bytes,
    /// A request of 1.0.
    pub old: bool,
    /// The header fields in the client's order.
    pub headers: HeadLines,
    /// Host without its port; `localhost` without a Host or with an empty one.
    pub server: Bytes,
    /// Host's port, else 80.
    pub port: u16,
    /// How the body is framed.
    pub plan: BodyPlan,
    /// A Connection header has the word `close`. A 1.0 request is last in its session without it too.
    pub close: bool,
    /// An Expect header is `100-continue`, whatever the version and the body.
    pub expect: bool,
}
