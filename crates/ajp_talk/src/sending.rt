//! Bytes that are sent, and their count.

ghost use Rattle.ajp_wire.specs.Moments.{link_at};
ghost use Rattle.ajp_talk.specs.Moments.{KeepsLink};
ghost use Rattle.ajp_talk.specs.Turns.{IsSent};

use jk_io::{IoError, Sink, write_counted};

/// Sends bytes, and adds what was taken of them to `sent`.
pub(crate) fn send<L: Sink>(line: &mut L, bytes: &[u8], sent: &mut u64) -> Result<(), IoError>
    ensures sent { IsSent (link_at L.Meanings line.old) (link_at L.Meanings line.new) sent.old sent.new bytes.now result }
    ensures keeps { KeepsLink L.Meanings line.old line.new }
{
    let mut written = 0;
    let answer = write_counted(line, bytes, &mut written);
    *sent = sent.saturating_add(written);
    answer
}
