//! A wire in memory: what a connector writes on it, a container reads, and the other way round.
ghost use Rattle.std.specs.Prelude.{◌≡◌, ◌++◌, [], length, take, min, OnOk, OnErr};
ghost use Rattle.drill.specs.Wires.{wire};

use jk_io::{Awaited, Bytes, IoError, Link, Meanings, NoMemory, Sink, Source};
use std::alloc::Global;
use std::marker::Model;

/// A wire. As a link it is its container's end.
#[derive(Drop)]
pub(crate) struct Wire {
    /// What the connector wrote, and how many bytes of it the container is done with.
    asked: Bytes,
    done: usize,
    /// What the container wrote.
    answered: Bytes,
}

impl Model for Wire {
    ghost use Rattle.std.specs.Prelude.{◌≤◌, length, take, drop};
    ghost use Rattle.drill.specs.Wires.{WireState};

    ghost Value = { WireState };

    ghost view = { λ w. record { done = take w.done w.asked; coming = drop w.done w.asked; answered = w.answered } };

    ghost invariant = { λ w. w.done ≤ length w.asked };
}

/// Copies the front of a text to the front of a buffer.
pub(crate) fn copy_front(text: &[u8], buf: &mut [u8]) -> usize
    ensures count { result ≡ min (length text.now) (length buf.old) }
    ensures copied { take result buf.new ≡ take result text.now }
    ensures len { length buf.new ≡ length buf.old }
{
    let n = text.len().min(buf.len());
    buf[..n].copy_from_slice(&text[..n]);
    n
}

impl Wire {
    /// A wire on which nothing was written. It takes no memory.
    pub(crate) fn new(alloc: Global) -> Wire
        ensures { result ≡ wire [] [] [] }
    {
        Wire {
            asked: Bytes::new(alloc),
            done: 0,
            answered: Bytes::new(alloc),
        }
    }

    /// Writes at the connector's end.
    pub(crate) fn ask(&mut self, piece: &[u8]) -> Result<(), NoMemory>
        ensures ok { OnOk result (self.new ≡ wire self.old.done (self.old.coming ++ piece.now) self.old.answered) }
        ensures err { OnErr result (self.new ≡ self.old) }
    {
        self.asked.extend(piece)
    }

    /// What the container wrote.
    pub(crate) fn answered(&self) -> &[u8]
        ensures { result.now ≡ self.now.answered }
    {
        self.answered.as_slice()
    }

    /// The container is done with all that was written.
    pub(crate) fn pass_over(&mut self)
        ensures { self.new ≡ wire (self.old.done ++ self.old.coming) [] self.old.answered }
    {
        self.done = self.asked.len();
    }

    /// A wire on which nothing was written, with the memory of this one.
    pub(crate) fn clear(&mut self)
        ensures { self.new ≡ wire [] [] [] }
    {
        self.asked.clear();
        self.done = 0;
        self.answered.clear();
    }
}

impl Meanings for Wire {
    ghost use Rattle.std.specs.Prelude.{Some, ◌++◌};

    // all that the connector wrote
    type Beside = Bytes;

    ghost incoming = { λ w. Some w.coming };

    ghost received = { λ w. Some w.done };

    ghost sent = { λ w. Some w.answered };

    ghost beside = { λ w. w.done ++ w.coming };

    ghost faults = { λ _. 0 };
}

impl Source for Wire {
    fn read(&mut self, buf: &mut [u8]) -> Result<usize, IoError> {
        let n = copy_front(&self.asked.as_slice()[self.done..], buf);
        self.done += n;
        Ok(n)
    }
}

impl Sink for Wire {
    fn write(&mut self, piece: &[u8]) -> Result<usize, IoError> {
        self.answered.extend(piece)?;
        Ok(piece.len())
    }
}

impl Link for Wire {
    ghost use Rattle.std.specs.Prelude.{false};

    // what it has to give is at hand
    ghost may_wait = { false };

    fn await_next(&mut self, _what: Awaited) {}
}
