//! The workers of a connector's run: one for each gear, and what they leave.
ghost use Rattle.std.specs.Prelude.{◌≡◌, ◌≤◌, [], vec_capacity, vec_len, IfErr, IfOk};
ghost use Rattle.conn_pool.specs.Idle.{counts};
ghost use Rattle.exchange.specs.Requests.{sizes_of};
ghost use Rattle.lb_shared.specs.Locks.{lock_of};
ghost use Rattle.jk_server.specs.Rooms.{HasRoomForEnds};
ghost use Rattle.jk_server.specs.ServedGears.{IsRunOf};
ghost use Rattle.jk_server.specs.RunTells.{run_tells};
ghost use Rattle.jk_server.specs.Started.{AreReady};

use crate::part::Ran;
use crate::workers::{empty_slots, fill_slots, room_for, serve_slots};
use conn_pool::Tape;
use gear_parts::{Common, Gear};
use jk_io::{Clock, Dial, Door, NoMemory};
use lb_shared::{DeskShare, Leaving, Shelf, SiteName};
use request_log::{Format, Timed};
use site_config::Config;
use site_mounts::UriMap;
use std::alloc::Global;
use std::sync::Wait;
use std::thread::Threads;

/// How idle links are looked after.
#[derive(Clone, Copy)]
pub struct WatchPlan {
    /// The seconds between two looks; with 0 there are none.
    pub every: u64,
    /// The most looks that a link may stay idle for, where its member says nothing else.
    pub limit: u32,
}

/// The site by which the clients are served.
#[derive(Clone, Copy)]
pub struct SitePlan<'a> {
    pub cfg: &'a Config,
    pub map: &'a UriMap,
    /// The number of kept entries at which a journal is cut.
    pub cut: u32,
    /// The format of the logs.
    pub format: &'a Format,
    /// How idle links are looked after, if they are.
    pub watch: Option<WatchPlan>,
}

/// The memory of a run: the slots of its workers, and the room for what they leave.
#[derive(Drop)]
struct RunMemory<Q, L, V, G> {
    slots: Vec<Q>,
    room: Ran<L, V, G>,
}

/// Takes the memory for `count` workers.
fn memory_for<Q: Drop, L, V: Drop, G: Drop>(
    alloc: Global,
    count: usize,
) -> Result<RunMemory<Q, L, V, G>, NoMemory>
    ensures slots { IfOk result (λ m. (m.slots.items ≡ []) × (count ≤ vec_capacity m.slots)) }
    ensures room { IfOk result (λ m. HasRoomForEnds count m.room) }
{
    Ok(RunMemory {
        slots: Vec::with_capacity(alloc, count)?,
        room: room_for(alloc, count)?,
    })
}

/// Serves by a worker for each gear, with one part of the share each. For want of memory the gears come back, and nothing was
/// asked of them.
pub(crate) fn work<
    's,
    'r,
    L: SiteName + Send + Sync,
    D: Door + Drop + Send,
    G: Dial + Drop + Send,
    T: Tape + Drop + Send,
    K: Clock + Drop + Send,
    S: Shelf + Drop + Send,
    O: Timed + Drop + Send,
    R: Threads + Wait + Sync,
>(
    rt: &'r R,
    alloc: Global,
    plan: SitePlan<'_>,
    common: &Common<'s, 'r, L, G, R>,
    share: DeskShare<L>,
    gears: Vec<Gear<D, G, T, K, S, O>>,
) -> Result<Ran<L, Leaving<L, ()>, Gear<D, G, T, K, S, O>>, Vec<Gear<D, G, T, K, S, O>>>
where
    D::L: Send,
    requires ready { AreReady T.is_idle share.parts plan.cfg.now plan.map.now (vec_len gears) gears.items }
    requires amount { share.amount ≡ 0 }
    requires desk_sizes { L.sizes ≡ sizes_of plan.cfg.now.lbs }
    requires pool_sizes { counts common.now.pools.now ≡ sizes_of plan.cfg.now.lbs }
    requires format { common.now.format.now ≡ plan.format.now }
    ensures ran { let told = run_tells D.Door T.Tape K.Clock D.L.Meanings S.Shelf O.Meanings D.L.may_wait in
        IfOk result (IsRunOf told plan.entry (lock_of common.now.site.now) gears.items) }
    ensures unasked { IfErr result (λ back. back.items ≡ gears.items) }
{
    let memory = match memory_for(alloc, gears.len()) {
        Ok(memory) => memory,
        Err(NoMemory) => return Err(gears),
    };
    let RunMemory { slots, room } = memory;
    let mut slots = slots;
    let mut ran = room;
    fill_slots(alloc, common, share, gears, &mut slots);
    serve_slots(rt, alloc, plan.cfg, plan.map, &mut slots);
    empty_slots(slots, &mut ran);
    Ok(ran)
}
