//! A client whose bytes never end.
ghost use Rattle.std.specs.Prelude.{◌≡◌, length, min};

use jk_io::{Awaited, IoError, Link, Meanings, Sink, Source};

/// How many bytes one write takes at most.
const TAKEN_AT_ONCE: usize = 16_384;

/// A link that gives a text over and over, at most to its end in one read, and copies what it takes into one buffer.
/// It tells nothing of the bytes.
#[derive(Drop)]
pub struct Feed<'a> {
    text: &'a [u8],
    /// What is left of it to give.
    left: &'a [u8],
    taken: [u8; TAKEN_AT_ONCE],
}

impl<'a> Feed<'a> {
    pub fn new(text: &'a [u8]) -> Feed<'a> {
        Feed {
            text,
            left: text,
            taken: [0; TAKEN_AT_ONCE],
        }
    }
}

impl<'a> Meanings for Feed<'a> {
    ghost use Rattle.std.specs.Prelude.{None};

    type Beside = ();

    ghost incoming = { λ _. None };

    ghost received = { λ _. None };

    ghost sent = { λ _. None };

    ghost beside = { λ _. tt };

    ghost faults = { λ _. 0 };
}

/// Copies what fits from the front of one to the front of the other, and answers how many bytes it is.
fn copy_front(from: &[u8], to: &mut [u8]) -> usize
    ensures count { result ≡ min (length from.now) (length to.old) }
    ensures long { length to.new ≡ length to.old }
{
    let count = from.len().min(to.len());
    to[..count].copy_from_slice(&from[..count]);
    count
}

impl<'a> Source for Feed<'a> {
    fn read(&mut self, buf: &mut [u8]) -> Result<usize, IoError> {
        if self.left.is_empty() {
            self.left = self.text;
        }
        let count = copy_front(self.left, buf);
        self.left = &self.left[count..];
        Ok(count)
    }
}

impl<'a> Sink for Feed<'a> {
    fn write(&mut self, piece: &[u8]) -> Result<usize, IoError> {
        Ok(copy_front(piece, &mut self.taken))
    }
}

impl<'a> Link for Feed<'a> {
    fn await_next(&mut self, _what: Awaited) {}
}
