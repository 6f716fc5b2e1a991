//! The passage of a reply to its client: whether a byte was written, and whether a write failed.
ghost use Rattle.std.specs.Prelude.{◌≡◌, ◌||◌};
ghost use Rattle.http_out.specs.Passage.{IsSent, WritesClient};

use crate::reply_head::OutError;
use jk_io::{IoError, Sink, write_counted};

/// Whether a byte was written, and whether a write failed.
#[derive(Clone, Copy, PartialEq, Eq)]
pub struct Passage {
    pub passed: bool,
    pub failed: bool,
}

/// Writes a piece, and notes what became of it. Where it is the reply's last one, the client is flushed after it.
pub fn send<C: Sink>(
    client: &mut C,
    piece: &[u8],
    last: bool,
    passage: &mut Passage,
) -> Result<(), OutError>
    ensures sent { IsSent piece.now passage.old passage.new (C.sent client.old) (C.sent client.new) result }
    ensures writes { WritesClient C.Meanings client.old client.new result }
{
    let mut written = 0;
    let answer = match write_counted(client, piece, &mut written) {
        Ok(()) if last => client.flush(),
        answer => answer,
    };
    passage.passed = either(passage.passed, written > 0);
    match answer {
        Ok(()) => Ok(()),
        Err(IoError::Failed) => {
            passage.failed = true;
            Err(OutError::Fault)
        }
        Err(IoError::NoMemory) => {
            passage.failed = true;
            Err(OutError::NoMemory)
        }
    }
}

fn either(before: bool, now: bool) -> bool
    ensures { result ≡ (before || now) }
{
    before || now
}
