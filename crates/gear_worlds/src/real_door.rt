//! A worker's door in the real world.
ghost use Rattle.std.specs.Prelude.{◌≡◌, ◌+◌, ◌<◌, IfOk, IfNone, IfSome, IsOk, OnErr};
ghost use Rattle.jk_io.specs.Told.{HasCause};
ghost use Rattle.gear_worlds.specs.RealDoors.{door_faults, door_room};

use jk_io::{Door, IoError, Peer};
use real_io::{TcpDoor, TcpLink};
use std::alloc::Global;
use std::sync::Wait;
use waiting_room::RoomDoor;

/// The door of a real gear. It tells nothing of its clients.
#[derive(Drop)]
pub enum RealDoor<'r, R: Wait + Eprint> {
    /// Into the room where the clients of a site wait.
    Waiting(RoomDoor<'r, R>),
    /// Of a container's worker, which keeps its client.
    Plain(TcpDoor),
}

impl<'r, R: Wait + Eprint> RealDoor<'r, R> {
    /// Whether its worker ended while clients might still come into its room.
    pub(crate) fn is_left_open(&self) -> bool {
        match self {
            RealDoor::Waiting(door) => !door.is_closed(),
            RealDoor::Plain(_) => false,
        }
    }
}

impl<'r, R: Wait + Eprint> Door for RealDoor<'r, R> {
    ghost use Rattle.std.specs.Prelude.{None};
    ghost use Rattle.gear_worlds.specs.RealDoors.{door_faults, door_room};

    type L = TcpLink;

    ghost coming = { λ _. None };

    ghost left = { λ _. None };

    ghost room = { door_room };

    ghost faults = { door_faults };

    fn accept(&mut self, alloc: Global) -> Result<Option<(TcpLink, Peer)>, IoError>
        ensures one_more { IfOk result (λ answer. IfSome answer (λ _. door_room self.new ≡ door_room self.old + 1)) }
        ensures no_more { IfOk result (λ answer. IfNone answer (door_room self.new ≡ door_room self.old)) }
        ensures kept_on_error { OnErr result (door_room self.new ≡ door_room self.old) }
        ensures cause { HasCause (door_faults self.old) (door_faults self.new) result }
        ensures steady { IsOk result → door_faults self.new ≡ door_faults self.old }
    {
        match self {
            RealDoor::Waiting(door) => door.accept(alloc),
            RealDoor::Plain(door) => door.accept(alloc),
        }
    }

    fn leave(&mut self, link: TcpLink)
        requires { 0 < door_room self.old }
        ensures one_less { door_room self.new + 1 ≡ door_room self.old }
        ensures same { door_faults self.new ≡ door_faults self.old }
    {
        match self {
            RealDoor::Waiting(door) => door.leave(link),
            RealDoor::Plain(door) => door.leave(link),
        }
    }
}
