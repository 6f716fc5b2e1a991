//! What has a door at which a worker serves: a door itself, or something that has one beside other things.
ghost use Rattle.std.specs.Prelude.{◌≡◌};
ghost use Rattle.jk_io.specs.Doors.{side};
ghost use Rattle.ajp_container.specs.Served.{IsServedDoor};

use crate::app_config::AppConfig;
use crate::door_links::serve_links;
use crate::worker_ends::ContainerWorker;
use jk_io::Door;
use std::alloc::Global;
use std::sync::Wait;

/// A value of which a worker of a container uses the door alone.
pub trait HasDoor<D: Door> {
    ghost use Rattle.std.specs.Prelude.{◌≡◌};
    ghost use Rattle.jk_io.specs.Doors.{side};
    ghost use Rattle.ajp_container.specs.Served.{IsServedDoor};

    // its door
    ghost door: { Self → D };

    // the same with another door
    ghost with_door: { Self → D → Self };

    /// Serves the links that its door gives, until it gives none, fails, or memory is wanted.
    fn serve_door<R: Wait>(&mut self, rt: &R, alloc: Global, app: &AppConfig) -> ContainerWorker
        ensures served { let at = side D.coming D.left D.faults in
            IsServedDoor app.now D.L.Meanings (at (door self.old)) (at (door self.new)) result }
        ensures kept { self.new ≡ with_door self.old (door self.new) };
}

impl<D: Door> HasDoor<D> for D {
    ghost door = { λ d. d };

    ghost with_door = { λ _ d. d };

    fn serve_door<R: Wait>(&mut self, rt: &R, alloc: Global, app: &AppConfig) -> ContainerWorker {
        serve_links(rt, alloc, app, self)
    }
}
