//! A chunk, and the end of a reply, in one write each.
ghost use Rattle.std.specs.Prelude.{◌≡◌, ◌++◌, [], true};
ghost use Rattle.http_out.specs.Framing.{framed, closing_bytes, is_passed};
ghost use Rattle.http_out.specs.Passage.{IsSent, WritesClient};

use crate::framing::{Framing, put_closing, put_framed};
use crate::passage::{Passage, send};
use crate::reply_head::OutError;
use jk_io::{Bytes, NoMemory, Sink};

/// Writes a chunk after the text that is held, and leaves no text. A chunk that needs no frame goes from where it lies.
pub fn write_piece<C: Sink>(
    text: &mut Bytes,
    framing: Framing,
    chunk: &[u8],
    client: &mut C,
    passage: &mut Passage,
) -> Result<(), OutError>
    requires { is_passed framing chunk.now ≡ true }

    ensures sent { IsSent (text.old ++ framed framing chunk.now) passage.old passage.new (C.sent client.old) (C.sent client.new) result }
    ensures spent { text.new ≡ [] }
    ensures writes { WritesClient C.Meanings client.old client.new result }
{
    if text.is_empty() && !framing.is_chunked() {
        return send(client, chunk, false, passage);
    }
    let sent = match put_framed(text, framing, chunk) {
        Ok(()) => send(client, text.as_slice(), false, passage),
        Err(NoMemory) => Err(give_up(passage)),
    };
    text.clear();
    sent
}

/// Writes what is held and what follows the last chunk, flushes the client, and leaves no text.
pub fn write_closing<C: Sink>(
    text: &mut Bytes,
    framing: Framing,
    client: &mut C,
    passage: &mut Passage,
) -> Result<(), OutError>
    ensures sent { IsSent (text.old ++ closing_bytes framing) passage.old passage.new (C.sent client.old) (C.sent client.new) result }
    ensures spent { text.new ≡ [] }
    ensures writes { WritesClient C.Meanings client.old client.new result }
{
    let sent = match put_closing(text, framing) {
        Ok(()) => send(client, text.as_slice(), true, passage),
        Err(NoMemory) => Err(give_up(passage)),
    };
    text.clear();
    sent
}

/// Leaves the reply broken off for want of memory.
fn give_up(passage: &mut Passage) -> OutError
    ensures error { result ≡ OutError.NoMemory }
    ensures broken { passage.new ≡ record passage.old { failed = true } }
{
    passage.failed = true;
    OutError::NoMemory
}
