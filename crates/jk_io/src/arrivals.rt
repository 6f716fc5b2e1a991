//! Arrivals: the answers of a door to a worker that waits for a client.
ghost use Rattle.std.specs.Prelude.{◌+◌, ◌≡◌};
ghost use Rattle.jk_io.specs.Doors.{Arrives, room_after, side};

use crate::{Door, IoError, Peer};
use std::alloc::Global;

/// What a door answered to a worker that waits for a client.
#[derive(Drop)]
pub enum Arrival<C> {
    Client { link: C, peer: Peer },
    /// No client comes any more.
    Closed,
    /// The door failed.
    Fault,
    NoMemory,
}

/// Waits for the next client of a door. Its link can be left at the door.
pub fn next_client<D: Door>(alloc: Global, door: &mut D) -> Arrival<D::L>
    ensures arrives { Arrives (side D.coming D.left D.faults door.old) (side D.coming D.left D.faults door.new) result }
    ensures room { D.room door.new ≡ room_after (D.room door.old) result }

    // No failure of the door is passed over before it says that it is closed, or for want of memory.
    ensures steady { result ≡ Arrival.Closed → D.faults door.new ≡ D.faults door.old }
    ensures wanted { result ≡ Arrival.NoMemory → D.faults door.new ≡ D.faults door.old }
{
    match door.accept(alloc) {
        Ok(Some((link, peer))) => Arrival::Client { link, peer },
        Ok(None) => Arrival::Closed,
        Err(IoError::Failed) => Arrival::Fault,
        Err(IoError::NoMemory) => Arrival::NoMemory,
    }
}
