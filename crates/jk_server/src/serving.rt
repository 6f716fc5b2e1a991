//! The whole work of one worker.
ghost use Rattle.std.specs.Prelude.{◌≡◌};
ghost use Rattle.client_session.specs.Requests.{visit};
ghost use Rattle.exchange.specs.Awaits.{AwaitsDials};
ghost use Rattle.jk_server.specs.Served.{ServesPart};
ghost use Rattle.jk_server.specs.PartTells.{part_tells};
ghost use Rattle.jk_server.specs.Turns.{TurnsPart};
ghost use Rattle.jk_server.specs.Worker.{IsFit, MayBegin};

use crate::client::{go_on, serve_client};
use crate::part::{Post, WorkerEnd};
use crate::told_log::ToldLog;
use gear_parts::{Part, WorkerLog};
use http_front::Inbox;
use jk_io::{Arrival, Clock, Door, Reach, next_client};
use lb_shared::{Shelf, SiteName};
use site_config::Config;
use site_mounts::UriMap;
use std::alloc::Global;
use std::sync::Wait;

/// Serves the clients that the part's door gives, one after the other, until the worker ends. No talk of the reach runs,
/// and the desk holds no ticket, before the call and after it. The log isn't broken before it. Before each talk the reach is told
/// how long its dial may take.
pub fn serve_part<L: SiteName, D: Door, R: Reach, K: Clock, S: Shelf, W: Wait, Y: WorkerLog>(
    rt: &W,
    alloc: Global,
    cfg: &Config,
    map: &UriMap,
    number: u32,
    part: &mut Part<'_, '_, L, D, R, K, S, W, Y>,
) -> WorkerEnd<L>
    requires ready { MayBegin cfg.now map.now part.old.desk.desk (R.beside part.old.reach) (Y.broken_by part.old.log) }
    ensures served { ServesPart (part_tells D.Door D.L.Meanings D.L.heard K.Clock R.Meanings R.heard R.looks S.Shelf ⟦<Y as ToldLog>⟧.told D.L.may_wait)
        (visit cfg.now map.now number) part.old part.new result }
    ensures dials { AwaitsDials R.Meanings R.heard cfg.now.lbs part.old.reach part.new.reach }
    ensures fit { IsFit cfg.now map.now part.new.desk.desk (R.beside part.new.reach) }
    ensures parts { part.new.desk.desk.parts ≡ part.old.desk.desk.parts }
{
    let post = Post { cfg, map, number };
    let mut sessions: u64 = 0;
    // What the clients' bytes are read into, once the first has come.
    let mut inbox = None;
    'clients: for _ in rt.forever() {
        match serve_turn(alloc, post, part, sessions, &mut inbox) {
            Some(end) => return end,
            None => sessions = sessions.saturating_add(1),
        }
    }
    unreachable!()
}

/// Serves the next client of the part's door, and rests where the worker goes on; says whether it ends, and how.
fn serve_turn<L: SiteName, D: Door, R: Reach, K: Clock, S: Shelf, W: Wait, Y: WorkerLog>(
    alloc: Global,
    post: Post<'_>,
    part: &mut Part<'_, '_, L, D, R, K, S, W, Y>,
    sessions: u64,
    inbox: &mut Option<Inbox>,
) -> Option<WorkerEnd<L>>
    requires ready { MayBegin post.cfg.now post.map.now part.old.desk.desk (R.beside part.old.reach) (Y.broken_by part.old.log) }
    ensures { TurnsPart (part_tells D.Door D.L.Meanings D.L.heard K.Clock R.Meanings R.heard R.looks S.Shelf ⟦<Y as ToldLog>⟧.told D.L.may_wait)
        post.entry part.old part.new sessions result }
{
    let (link, peer) = match next_client(alloc, &mut part.door) {
        Arrival::Client { link, peer } => (link, peer),
        Arrival::Closed => return Some(WorkerEnd::Closed { sessions }),
        Arrival::Fault => return Some(WorkerEnd::DoorFault),
        Arrival::NoMemory => return Some(WorkerEnd::NoMemory),
    };
    match serve_client(alloc, post, part, link, &peer, inbox) {
        Some(end) => Some(end),
        None => go_on(alloc, part),
    }
}
