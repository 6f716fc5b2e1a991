//! Standard input and output.
ghost use Rattle.std.specs.Prelude.{◌≡◌, ◌≤◌, IsOk, IfOk, length};
ghost use Rattle.jk_io.specs.Told.{HasCause};

use crate::failed_calls::FailedCalls;
use jk_io::{IoError, Meanings, Sink, Source};
use std::io::{ErrorKind, Read};

/// A source over one of std's readers. It tells nothing of what is read.
#[derive(Drop)]
pub struct ReadSource<T: Read + Drop> {
    reader: T,
    failed: FailedCalls,
}

/// A source over standard input.
pub type StdIn<T> = ReadSource<T>;

impl<T: Read + Drop> ReadSource<T> {
    pub fn new(reader: T) -> ReadSource<T>
        ensures { (result.reader ≡ reader) × (result.failed ≡ 0) }
    {
        ReadSource {
            reader,
            failed: FailedCalls::none(),
        }
    }
}

impl<T: Read + Drop> Meanings for ReadSource<T> {
    ghost use Rattle.std.specs.Prelude.{None};

    type Beside = ();

    ghost incoming = { λ _. None };

    ghost received = { λ _. None };

    ghost sent = { λ _. None };

    ghost beside = { λ _. tt };

    ghost faults = { λ s. s.failed };
}

impl<T: Read + Drop> Source for ReadSource<T> {
    fn read(&mut self, buf: &mut [u8]) -> Result<usize, IoError> {
        receive(&mut self.reader, buf, &mut self.failed)
    }
}

/// One read of a reader, counted where it fails; a signal in its midst is no failure.
pub(crate) fn receive<T: Read>(
    reader: &mut T,
    buf: &mut [u8],
    failed: &mut FailedCalls,
) -> Result<usize, IoError>
    ensures count { IfOk result (λ n. n ≤ length buf.new) }
    ensures cause { HasCause failed.old failed.new result }
    ensures steady { IsOk result → failed.new ≡ failed.old }
{
    for _ in 0..u64::MAX {
        match reader.read(buf) {
            Ok(n) => return Ok(n),
            Err(error) if error.kind() == ErrorKind::Interrupted => {}
            Err(_) => break,
        }
    }
    Err(failed.fail())
}

/// A sink over standard output. It tells nothing of what is written.
#[derive(Drop)]
pub struct StdOut<'r, P: Print> {
    rt: &'r P,
    failed: FailedCalls,
}

impl<'r, P: Print> StdOut<'r, P> {
    pub fn new(rt: &'r P) -> StdOut<'r, P>
        ensures { result.failed ≡ 0 }
    {
        StdOut {
            rt,
            failed: FailedCalls::none(),
        }
    }
}

impl<'r, P: Print> Meanings for StdOut<'r, P> {
    ghost use Rattle.std.specs.Prelude.{None};

    type Beside = ();

    ghost incoming = { λ _. None };

    ghost received = { λ _. None };

    ghost sent = { λ _. None };

    ghost beside = { λ _. tt };

    ghost faults = { λ s. s.failed };
}

impl<'r, P: Print> Sink for StdOut<'r, P> {
    fn write(&mut self, piece: &[u8]) -> Result<usize, IoError> {
        match self.rt.write_some(piece) {
            Ok(n) if n > 0 => Ok(n),
            _ => Err(self.failed.fail()),
        }
    }
}
