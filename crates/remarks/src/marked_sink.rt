//! A sink of which each line begins with `jkd: `.
ghost use Rattle.std.specs.Prelude.{◌≡◌, ◌-◌, ◌<◌, ◌≤◌, ◌==◌, IfSome, length, position, slice_index, true};
ghost use Rattle.remarks.specs.Lines.{first_line};

use crate::write_sink::put_some;
use jk_io::{IoError, Meanings, Sink};
use std::io::Write;

/// What each line begins with.
const MARK: &[u8] = b"jkd: ";

/// A sink over a writer, which puts the mark before each line. It tells nothing of what is written.
#[derive(Drop)]
pub struct MarkedSink<W: Write + Drop> {
    writer: W,
    /// Whether the next byte begins a line.
    begins: bool,
    failed: u64,
}

impl<W: Write + Drop> MarkedSink<W> {
    pub fn new(writer: W) -> MarkedSink<W>
        ensures { (result.writer ≡ writer) × (result.begins ≡ true) × (result.failed ≡ 0) }
    {
        MarkedSink {
            writer,
            begins: true,
            failed: 0,
        }
    }
}

impl<W: Write + Drop> Meanings for MarkedSink<W> {
    ghost use Rattle.std.specs.Prelude.{None};

    type Beside = ();

    ghost incoming = { λ _. None };

    ghost received = { λ _. None };

    ghost sent = { λ _. None };

    ghost beside = { λ _. tt };

    ghost faults = { λ s. s.failed };
}

impl<W: Write + Drop> Sink for MarkedSink<W> {
    fn write(&mut self, piece: &[u8]) -> Result<usize, IoError> {
        match put_marked(&mut self.writer, &mut self.begins, piece) {
            Some(n) => Ok(n),
            None => {
                self.failed = self.failed.saturating_add(1);
                Err(IoError::Failed)
            }
        }
    }
}

/// Writes the mark where a line begins; none where it can't be written.
fn put_mark<W: Write>(writer: &mut W, begins: &mut bool) -> Option<()> {
    if *begins {
        writer.write_all(MARK).ok()?;
        *begins = false;
    }
    Some(())
}

/// Where the first line ends, if it does.
fn line_end(piece: &[u8]) -> Option<usize>
    ensures { result ≡ position (λ b. b == 10) piece.now }
{
    piece.iter().position(|b| *b == b'\n')
}

/// The piece up to the end of its first line.
fn first_line(piece: &[u8]) -> &[u8]
    ensures line { result.now ≡ first_line piece.now }
    ensures short { length result.now ≤ length piece.now }
{
    match line_end(piece) {
        Some(at) => &piece[..at + 1],
        None => piece,
    }
}

/// How many bytes of the piece one write took, at least one, and none behind its first line.
fn put_marked<W: Write>(writer: &mut W, begins: &mut bool, piece: &[u8]) -> Option<usize>
    ensures count { IfSome result (λ n. (0 < n) × (n ≤ length piece.now)) }
    ensures line { IfSome result (λ n. n ≤ length (first_line piece.now)) }
    ensures begins { IfSome result (λ n. begins.new ≡ (slice_index piece.now (n - 1) == 10)) }
{
    put_mark(writer, begins)?;
    let n = put_some(writer, first_line(piece))?;
    *begins = piece[n - 1] == b'\n';
    Some(n)
}
