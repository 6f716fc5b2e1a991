//! `Room`: the memory that a talk reads its packets into.

use jk_io::Bytes;
use std::alloc::Global;

/// Where a talk takes memory from, and its one buffer for the payloads of the container's packets.
#[derive(Drop)]
pub(crate) struct Room {
    pub(crate) alloc: Global,
    /// The payload of the last packet, unless a chunk took its memory.
    pub(crate) payload: Vec<u8>,
}

impl Room {
    pub(crate) fn new(alloc: Global) -> Room {
        Room {
            alloc,
            payload: Vec::new(alloc),
        }
    }

    /// Takes the memory of a chunk back, which the next packet is read into.
    pub(crate) fn reuse(&mut self, chunk: Bytes) {
        self.payload = chunk.into_vec();
    }
}
