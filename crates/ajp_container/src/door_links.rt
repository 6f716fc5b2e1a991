//! The whole work of one worker: the links of its door, one after the other.
ghost use Rattle.std.specs.Prelude.{◌<◌, ◌≡◌, ◌≢◌, true, false};
ghost use Rattle.jk_io.specs.Doors.{side};
ghost use Rattle.ajp_container.specs.Served.{IsServedDoor, LeavesServed};

use crate::app_config::AppConfig;
use crate::ends::ContainerEnd;
use crate::serving::serve_ajp;
use crate::worker_ends::ContainerWorker;
use jk_io::{Arrival, Door, next_client};
use std::alloc::Global;
use std::sync::Wait;

/// Serves the links that a door gives until it gives none, fails, or memory is wanted.
pub fn serve_links<D: Door, R: Wait>(
    rt: &R,
    alloc: Global,
    app: &AppConfig,
    door: &mut D,
) -> ContainerWorker
    ensures served { IsServedDoor app.now D.L.Meanings (side D.coming D.left D.faults door.old)
        (side D.coming D.left D.faults door.new) result }
{
    let mut links: u64 = 0;
    'links: for _ in rt.forever() {
        match next_client(alloc, door) {
            Arrival::Client { link, peer: _ } => {
                let end = serve_link(alloc, app, door, link);
                if is_want(end) {
                    return ContainerWorker::NoMemory;
                }
                links = links.saturating_add(1);
            }
            Arrival::Closed => return ContainerWorker::Closed { links },
            Arrival::Fault => return ContainerWorker::DoorFault,
            Arrival::NoMemory => return ContainerWorker::NoMemory,
        }
    }
    unreachable!()
}

/// Serves a link to its end, and leaves it.
fn serve_link<D: Door>(alloc: Global, app: &AppConfig, door: &mut D, link: D::L) -> ContainerEnd
    requires room { 0 < D.room door.old }
    ensures served { LeavesServed app.now D.L.Meanings (side D.coming D.left D.faults door.old)
        (side D.coming D.left D.faults door.new) link result }
{
    let mut link = link;
    let end = serve_ajp(alloc, &mut link, app);
    door.leave(link);
    end
}

/// Whether a talk ended for want of memory.
fn is_want(end: ContainerEnd) -> bool
    ensures yes { result ≡ true → end ≡ ContainerEnd.NoMemory }
    ensures no { result ≡ false → end ≢ ContainerEnd.NoMemory }
{
    matches!(end, ContainerEnd::NoMemory)
}
