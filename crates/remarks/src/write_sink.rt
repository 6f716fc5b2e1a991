//! A sink over one of std's writers.
ghost use Rattle.std.specs.Prelude.{◌≡◌, ◌<◌, ◌≤◌, IfSome, length};

use jk_io::{IoError, Meanings, Sink};
use std::io::{ErrorKind, Write};

/// A sink over a writer. It tells nothing of what is written.
#[derive(Drop)]
pub struct WriteSink<W: Write + Drop> {
    writer: W,
    failed: u64,
}

impl<W: Write + Drop> WriteSink<W> {
    pub fn new(writer: W) -> WriteSink<W>
        ensures { (result.writer ≡ writer) × (result.failed ≡ 0) }
    {
        WriteSink { writer, failed: 0 }
    }
}

impl<W: Write + Drop> Meanings for WriteSink<W> {
    ghost use Rattle.std.specs.Prelude.{None};

    type Beside = ();

    ghost incoming = { λ _. None };

    ghost received = { λ _. None };

    ghost sent = { λ _. None };

    ghost beside = { λ _. tt };

    ghost faults = { λ s. s.failed };
}

impl<W: Write + Drop> Sink for WriteSink<W> {
    fn write(&mut self, piece: &[u8]) -> Result<usize, IoError> {
        match put_some(&mut self.writer, piece) {
            Some(n) => Ok(n),
            None => {
                self.failed = self.failed.saturating_add(1);
                Err(IoError::Failed)
            }
        }
    }
}

/// How many bytes of the piece one write took, at least one; a signal in its midst is no failure.
pub(crate) fn put_some<W: Write>(writer: &mut W, piece: &[u8]) -> Option<usize>
    ensures { IfSome result (λ n. (0 < n) × (n ≤ length piece.now)) }
{
    for _ in 0..u64::MAX {
        match writer.write(piece) {
            Ok(n) if n > 0 => return Some(n),
            Err(error) if error.kind() == ErrorKind::Interrupted => {}
            _ => return None,
        }
    }
    None
}
