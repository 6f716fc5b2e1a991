//! Pieces that are written whole.
ghost use Rattle.std.specs.Prelude.{◌≡◌, ℕ, ◌+◌, ◌-◌, ◌^◌, ◌<◌, ◌≤◌, List, length, take, IsOk, OnOk, OnErr};
ghost use Rattle.jk_io.specs.Told.{appended, HasCause, PutsFront};

use crate::failures::IoError;
use crate::traits::streams::Sink;

/// Writes a piece whole, and adds what was taken to `written`, also where a write was refused.
pub fn write_counted<S: Sink>(sink: &mut S, piece: &[u8], written: &mut u64) -> Result<(), IoError>
    requires { written.old + length piece.now < 2 ^ 64 }

    ensures whole { OnOk result (written.new ≡ written.old + length piece.now) }
    ensures up { written.old ≤ written.new }
    ensures most { written.new ≤ written.old + length piece.now }
    ensures put { S.sent sink.new ≡ appended (S.sent sink.old) (take (written.new - written.old) piece.now) }
    ensures same { (S.incoming sink.new ≡ S.incoming sink.old) × (S.received sink.new ≡ S.received sink.old)
        × (S.beside sink.new ≡ S.beside sink.old) }
    ensures cause { HasCause (S.faults sink.old) (S.faults sink.new) result }
    ensures steady { IsOk result → S.faults sink.new ≡ S.faults sink.old }
{
    let mut at = 0;
    while at < piece.len() {
        let taken = sink.write(&piece[at..])?;
        at += taken;
        *written += taken as u64;
    }
    Ok(())
}

/// Writes a piece whole. After a refusal a front of it was written.
pub fn write_all<S: Sink>(sink: &mut S, piece: &[u8]) -> Result<(), IoError>
    ensures put { OnOk result (S.sent sink.new ≡ appended (S.sent sink.old) piece.now) }
    ensures front { OnErr result (PutsFront (S.sent sink.old) (S.sent sink.new) piece.now) }
    ensures same { (S.incoming sink.new ≡ S.incoming sink.old) × (S.received sink.new ≡ S.received sink.old)
        × (S.beside sink.new ≡ S.beside sink.old) }
    ensures cause { HasCause (S.faults sink.old) (S.faults sink.new) result }
    ensures steady { IsOk result → S.faults sink.new ≡ S.faults sink.old }
{
    let mut written = 0;
    write_counted(sink, piece, &mut written)
}
