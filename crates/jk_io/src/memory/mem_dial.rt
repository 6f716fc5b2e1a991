//! A dial in memory.
ghost use Rattle.std.specs.Prelude.{◌≡◌, ◌↔◌, [], Contains, IfOk, IsOk, IsErr, IsErrOf, reverse};
ghost use Rattle.jk_io.specs.Told.{HasCause};
ghost use Rattle.jk_io.specs.Memory.{DialledNext, counted, next_incoming};
ghost use Rattle.jk_io.specs.Memory as nothing;

use crate::byte_list::Bytes;
use crate::failures::IoError;
use crate::list_of::{ListOf, NumberList};
use crate::memory::call_count::CallCount;
use crate::memory::mem_link::MemLink;
use crate::traits::surroundings::Dial;
use std::alloc::Global;
use std::marker::Model;

/// Links in memory, in order.
pub type MemLinkList = ListOf<MemLink>;

/// A dial that gives its links in turn, and links with nothing to come after the last.
#[derive(Drop)]
pub struct MemDial {
    /// The links to come, the next one last.
    links: Vec<MemLink>,
    failing: NumberList,
    count: CallCount,
}

impl Model for MemDial {
    ghost use Rattle.std.specs.Prelude.{reverse};
    ghost use Rattle.jk_io.specs.Memory.{MemDialState};

    ghost Value = { MemDialState };

    ghost view = { λ d. record { links = reverse d.links.items; failing = d.failing; calls = d.count.calls; faults = d.count.failed } };
}

impl MemDial {
    /// The dials of `failing`, numbered from 0, fail.
    pub fn new(links: MemLinkList, failing: NumberList) -> MemDial
        ensures { result ≡ record { links = links; failing = failing; calls = 0; faults = 0 } }
    {
        let mut links = links.into_vec();
        links.reverse();
        MemDial {
            links,
            failing,
            count: CallCount::new(),
        }
    }

    /// How many dials failed.
    pub fn faults(&self) -> u64
        ensures { result ≡ self.now.faults }
    {
        self.count.failed
    }
}

impl Dial for MemDial {
    type L = MemLink;

    ghost faults = { λ d. d.faults };

    ghost gives = { λ before _ _ link after. DialledNext before.links link after.links };

    fn dial(&mut self, alloc: Global, _host: &Bytes, _port: u16) -> Result<MemLink, IoError>
        ensures next { IfOk result (λ link. DialledNext self.old.links link self.new.links) }
        ensures failed { IsErr result → self.new.links ≡ self.old.links }
        ensures clean { IsOk result → self.new.faults ≡ self.old.faults }
        ensures cause { HasCause self.old.faults self.new.faults result }
        ensures same { self.new.failing ≡ self.old.failing }

        // It fails exactly at the dials that it was told to fail.
        ensures planned { IsErrOf result IoError.Failed ↔ Contains self.old.failing self.old.calls }
        ensures counted { self.new.calls ≡ counted self.old.calls }
        ensures steady { self.old.failing ≡ [] → self.new.faults ≡ self.old.faults }
    {
        if self.count.fails(&self.failing) {
            return Err(IoError::Failed);
        }
        Ok(take_next(&mut self.links, alloc))
    }

    fn await_dial(&mut self, _millis: u64, _keepalive: bool) {}
}

// Takes out the next link, or an empty one after the last; the links stand in reverse.
pub(crate) fn take_next(links: &mut Vec<MemLink>, alloc: Global) -> MemLink
    ensures next { DialledNext (reverse links.old.items) result (reverse links.new.items) }
    ensures came { result.incoming ≡ next_incoming (reverse links.old.items) }
{
    match links.pop() {
        Some(link) => link,
        None => empty_link(alloc),
    }
}

pub(crate) fn empty_link(alloc: Global) -> MemLink
    ensures { result ≡ nothing.empty_link }
{
    MemLink::new(alloc, Bytes::new(alloc), NumberList::new(alloc))
}
