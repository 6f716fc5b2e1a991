//! Pieces that are written to a client whole, and sent on their way.
ghost use Rattle.std.specs.Prelude.{◌≡◌, ◌≤◌};
ghost use Rattle.ajp_wire.specs.Moments.{link_at};
ghost use Rattle.exchange.specs.Deliveries.{Delivers};

use jk_io::{IoError, Sink, write_counted};

/// Writes a piece whole, and sees to it that it goes out. Where memory is wanted, some of it is still to be written: what
/// a flush in want of memory left goes out with the next one, or when the link is left.
pub fn deliver<S: Sink>(sink: &mut S, piece: &[u8]) -> Result<(), IoError>
    ensures delivered { Delivers piece.now (link_at S.Meanings sink.old) (link_at S.Meanings sink.new) result }
    ensures beside { S.beside sink.new ≡ S.beside sink.old }
    ensures no_fewer { S.faults sink.old ≤ S.faults sink.new }
{
    let mut written = 0;
    match write_counted(sink, piece, &mut written) {
        Err(IoError::Failed) => return Err(IoError::Failed),
        Err(IoError::NoMemory) if written < piece.len() as u64 => return Err(IoError::NoMemory),
        Ok(()) | Err(IoError::NoMemory) => {}
    }
    match sink.flush() {
        Err(IoError::Failed) => Err(IoError::Failed),
        Ok(()) | Err(IoError::NoMemory) => Ok(()),
    }
}
