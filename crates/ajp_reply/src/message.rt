//! The container's messages, and the parts of a reply's head.

use ajp_wire::HeadPairs;
use jk_io::Bytes;

/// A message of the container.
#[derive(Debug, Drop)]
pub enum Message {
    /// Send Headers: the head of the reply.
    Headers(ReplyParts),
    /// Send Body Chunk: the next bytes of the reply's body.
    Chunk(Bytes),
    /// End Response. `reuse` means that the link may serve again.
    End { reuse: bool },
    /// Get Body Chunk: how many bytes of the request's body are wanted; 0 asks for the most that a packet holds.
    Ask(u16),
    /// CPong, the answer to CPing.
    Pong,
}

/// The head of a reply as the container sends it.
#[derive(Debug, Drop)]
pub struct ReplyParts {
    /// Any number: the ranges of a status are those of the layer above.
    pub status: u16,
    pub message: Bytes,
    pub headers: HeadPairs,
}
