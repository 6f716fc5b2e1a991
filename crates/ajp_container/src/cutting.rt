//! A body in chunks.
ghost use Rattle.std.specs.Prelude.{◌≡◌, ◌<◌, ◌++◌, map, OnOk};
ghost use Rattle.ajp_reply.specs.declared.message.Message.TheVariants.{Chunk};
ghost use Rattle.ajp_container.specs.Answer.{cut};

use crate::answering::MessageList;
use ajp_reply::Message;
use jk_io::{Bytes, NoMemory};
use std::alloc::Global;

/// Adds a body at the end, in chunks of `size` bytes, the last with what is left.
pub fn put_chunks(
    alloc: Global,
    messages: &mut MessageList,
    body: &[u8],
    size: usize,
) -> Result<(), NoMemory>
    requires { 0 < size }
    ensures { OnOk result (messages.new ≡ messages.old ++ map Chunk (cut size body.now)) }
{
    let mut rest = body;
    while !rest.is_empty() {
        let (piece, others) = rest.split_at(size.min(rest.len()));
        messages.push(Message::Chunk(Bytes::from_slice(alloc, piece)?))?;
        rest = others;
    }
    Ok(())
}
