//! A link in memory that waits where it is told to, that holds back what it took until it is flushed, and that notes what
//! it is told to await.
ghost use Rattle.std.specs.Prelude.{◌≡◌, ◌+◌, ◌↔◌, [], ◌<◌, IsOk, IsErrOf, IsTrue, Contains, length};
ghost use Rattle.jk_io.specs.Told.{HasCause};

use crate::failures::IoError;
use crate::list_of::NumberList;
use crate::memory::call_count::CallCount;
use crate::memory::mem_link::MemLink;
use crate::traits::streams::{Awaited, Link, Meanings, Sink, Source};
use std::alloc::Global;

/// A link in memory whose other end is slow: its client's bytes come in parts, and what it takes may get lost on its way.
#[derive(Drop)]
pub struct PatientLink {
    link: MemLink,
    /// Its reads would wait once just so many bytes were given.
    pauses: NumberList,
    /// The flushes that fail, numbered from 0.
    failing: NumberList,
    flushes: CallCount,
    awaited: Vec<Awaited>,
}

impl PatientLink {
    /// A link in memory that waits at each number of given bytes in `pauses`, and of which the flushes of `failing`, numbered
    /// from 0, fail.
    pub fn new(alloc: Global, link: MemLink, pauses: NumberList, failing: NumberList) -> PatientLink
        ensures link { result.link ≡ link }
        ensures plan { (result.pauses ≡ pauses) × (result.failing ≡ failing) }
        ensures none_yet { (result.flushes.calls ≡ 0) × (result.flushes.failed ≡ 0) × (result.awaited.items ≡ []) }
    {
        PatientLink {
            link,
            pauses,
            failing,
            flushes: CallCount::new(),
            awaited: Vec::new(alloc),
        }
    }

    /// The link that its reads and writes go to.
    pub fn link(&self) -> &MemLink
        ensures { result.now ≡ self.now.link }
    {
        &self.link
    }

    /// What it was told to await, in order, as far as there was memory to note it.
    pub fn awaited(&self) -> &[Awaited]
        ensures { result.now ≡ self.now.awaited.items }
    {
        self.awaited.as_slice()
    }
}

impl Meanings for PatientLink {
    ghost use Rattle.std.specs.Prelude.{◌+◌, Some};

    type Beside = <MemLink as Meanings>::Beside;

    ghost incoming = { λ l. Some l.link.incoming };

    ghost received = { λ l. Some l.link.received };

    ghost sent = { λ l. Some l.link.sent };

    ghost beside = { λ l. l.link.plan };

    ghost faults = { λ l. l.link.faults + l.flushes.failed };
}

impl Source for PatientLink {
    fn read(&mut self, buf: &mut [u8]) -> Result<usize, IoError> {
        self.link.read(buf)
    }
}

impl Sink for PatientLink {
    fn write(&mut self, piece: &[u8]) -> Result<usize, IoError> {
        self.link.write(piece)
    }

    fn flush(&mut self) -> Result<(), IoError>
        // It fails exactly where it was told to.
        ensures planned { IsErrOf result IoError.Failed ↔ Contains self.old.failing self.old.flushes.calls }
        ensures unwanted { IsErrOf result IoError.NoMemory → ⊥ }

        // What each sink says.
        ensures same { self.new.link ≡ self.old.link }
        ensures cause { HasCause (self.old.link.faults + self.old.flushes.failed) (self.new.link.faults + self.new.flushes.failed) result }
        ensures steady { IsOk result → self.new.flushes.failed ≡ self.old.flushes.failed }
    {
        if self.flushes.fails(&self.failing) {
            return Err(IoError::Failed);
        }
        Ok(())
    }
}

impl Link for PatientLink {
    ghost use Rattle.std.specs.Prelude.{true};

    ghost may_wait = { true };

    fn waits(&mut self) -> bool
        ensures told { IsTrue result ↔ Contains self.old.pauses (length self.old.link.received) }
        ensures same { self.new ≡ self.old }
    {
        let given = self.link.received().len() as u64;
        self.pauses.as_slice().contains(&given)
    }

    fn await_next(&mut self, what: Awaited)
        ensures same { (self.new.link ≡ self.old.link) × (self.new.flushes ≡ self.old.flushes) }
    {
        let _ = self.awaited.push(what);
    }
}
