//! The container's head as one that may go to a client.

ghost use Rattle.std.specs.Prelude.{◌≡◌, ◌≤◌, length};
ghost use Rattle.ajp_talk.specs.Replies.{head_out};
ghost use Rattle.ajp_wire.specs.declared.head_pairs.TheConstants.{MAX_HEADERS};

use ajp_reply::ReplyParts;
use http_front::HeadLines;
use http_out::ReplyHead;

/// The head of a reply as `http_out` takes it, in the same memory.
pub(crate) fn reply_head(parts: ReplyParts) -> ReplyHead
    requires { length parts.headers ≤ MAX_HEADERS }
    ensures { result ≡ head_out parts }
{
    let ReplyParts {
        status,
        message,
        headers,
    } = parts;
    ReplyHead {
        status,
        message,
        headers: HeadLines::from_vec(headers.into_vec()),
    }
}
