//! A dial that counts how often it is asked.

use jk_io::{Bytes, Dial, IoError, MemDial, MemLink, MemLinkList, NumberList};
use std::alloc::Global;

#[derive(Drop)]
pub struct CountedDial {
    dial: MemDial,
    pub asked: u64,
}

impl CountedDial {
    /// Dials these links in turn. The dials of `failing` fail.
    pub fn new(links: MemLinkList, failing: NumberList) -> CountedDial {
        CountedDial {
            dial: MemDial::new(links, failing),
            asked: 0,
        }
    }
}

impl Dial for CountedDial {
    type L = MemLink;

    ghost faults = { λ d. d.dial.faults };

    fn dial(&mut self, alloc: Global, host: &Bytes, port: u16) -> Result<MemLink, IoError> {
        self.asked = self.asked.saturating_add(1);
        self.dial.dial(alloc, host, port)
    }

    fn await_dial(&mut self, _millis: u64, _keepalive: bool) {}
}
