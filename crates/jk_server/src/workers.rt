//! The slots of a run: a worker for each, which works with the part of a gear.
ghost use Rattle.std.specs.Prelude.{◌≡◌, ◌+◌, ◌<◌, ◌≤◌, ℕ, [], length, map, slice_index_or, vec_capacity, vec_len, IfOk};
ghost use Rattle.std.specs.List.{All};
ghost use Rattle.gear_parts.specs.GearParts.{start_by};
ghost use Rattle.gear_parts.specs.Putting.{PutsOne};
ghost use Rattle.jk_server.specs.Parts.{AllFour, AreDone, InEach, WorkerIsOver, LeavesSlot, WorksSlot, slot_start};
ghost use Rattle.jk_server.specs.PartTells.{part_tells};
ghost use Rattle.jk_server.specs.Rooms.{HasRoomForEnds, HasSpace, PutsLeft};
ghost use Rattle.jk_server.specs.Worker.{MayBegin};

use crate::part::{Ran, WorkerEnd};
use crate::serving::serve_part;
use crate::told_log::ToldLog;
use conn_pool::{Tape, WatchedReach};
use gear_parts::{Common, Gear, GearLog, Part, WorkerLog, gear_of, part_of};
use jk_io::{Clock, Dial, Door, NoMemory, Reach};
use lb_shared::{DeskShare, Leaving, Shelf, SiteName};
use request_log::Timed;
use site_config::Config;
use site_mounts::UriMap;
use std::alloc::Global;
use std::sync::Wait;
use std::thread::{self, Threads};
use std::vec::IntoIter;

/// The most worker threads of a run.
pub const MAX_WORKERS: usize = 64;

/// What a worker works with, and how it ended.
#[derive(Drop)]
pub(crate) struct Slot<P, L> {
    pub(crate) part: P,
    pub(crate) end: WorkerEnd<L>,
}

/// A slot with the part of a gear.
pub(crate) type GearSlot<'s, 'r, L, D, G, T, K, S, O, R> = Slot<
    Part<'s, 'r, L, D, WatchedReach<'s, 'r, G, T, R>, K, S, R, GearLog<'s, O>>,
    L,
>;

/// Puts the part of each gear into a slot, with one part of the share.
pub(crate) fn fill_slots<
    's,
    'r,
    L: SiteName,
    D: Drop,
    G: Dial + Drop,
    T: Tape + Drop,
    K: Drop,
    S: Shelf + Drop,
    O: Timed + Drop,
    R,
>(
    alloc: Global,
    common: &Common<'s, 'r, L, G, R>,
    share: DeskShare<L>,
    gears: Vec<Gear<D, G, T, K, S, O>>,
    slots: &mut Vec<GearSlot<'s, 'r, L, D, G, T, K, S, O, R>>,
)
    requires none { slots.old.items ≡ [] }
    requires room { vec_len gears ≤ vec_capacity slots.old }
    requires parts { share.parts ≡ vec_len gears }
    requires amount { share.amount ≡ 0 }
    requires idle { All (λ g. T.is_idle g.tape) gears.items }
    ensures starts { map slot_start slots.new.items ≡ map (start_by common.now L.sizes) gears.items }
{
    let mut share = share;
    let mut gears = gears.into_iter();
    put_slots(alloc, common, &mut share, &mut gears, slots);
}

/// As `fill_slots`, over gears and a share that the caller lends.
fn put_slots<'s, 'r, L: SiteName, D, G: Dial, T: Tape, K, S: Shelf, O: Timed, R>(
    alloc: Global,
    common: &Common<'s, 'r, L, G, R>,
    share: &mut DeskShare<L>,
    gears: &mut IntoIter<Gear<D, G, T, K, S, O>>,
    slots: &mut Vec<GearSlot<'s, 'r, L, D, G, T, K, S, O, R>>,
)
    requires none { slots.old.items ≡ [] }
    requires room { length gears.old.rest.items ≤ vec_capacity slots.old }
    requires parts { share.old.parts ≡ length gears.old.rest.items }
    requires amount { share.old.amount ≡ 0 }
    requires idle { All (λ g. T.is_idle g.tape) gears.old.rest.items }
    ensures starts { map slot_start slots.new.items ≡ map (start_by common.now L.sizes) gears.old.rest.items }
{
    'gears: while let Some(gear) = gears.next() {
        put_slot(alloc, common, share, gear, slots);
    }
}

/// Adds a slot with the part of a gear at the end.
fn put_slot<'s, 'r, L: SiteName, D, G: Dial, T: Tape, K, S: Shelf, O: Timed, R>(
    alloc: Global,
    common: &Common<'s, 'r, L, G, R>,
    share: &mut DeskShare<L>,
    gear: Gear<D, G, T, K, S, O>,
    slots: &mut Vec<GearSlot<'s, 'r, L, D, G, T, K, S, O, R>>,
)
    requires some { 0 < share.old.parts }
    requires amount { share.old.amount ≡ 0 }
    requires idle { T.is_idle gear.tape }
    requires room { vec_len slots.old < vec_capacity slots.old }
    ensures slot { PutsOne (λ s. slot_start s ≡ start_by common.now L.sizes gear) slots.old.items slots.new.items }
    ensures share { (share.new.parts + 1 ≡ share.old.parts) × (share.new.amount ≡ 0) }
    ensures len { vec_len slots.new ≡ vec_len slots.old + 1 }
    ensures capacity { vec_capacity slots.new ≡ vec_capacity slots.old }
{
    let mine = share.split_off(1);
    slots.push_reserved(Slot {
        part: part_of(alloc, common, mine, gear),
        end: WorkerEnd::NoMemory,
    });
}

/// Serves the part in each slot by a worker of its own, which has the slot's place as its number, and waits for all of them.
pub(crate) fn serve_slots<
    's,
    'r,
    L: SiteName + Send + Sync,
    D: Door + Drop + Send,
    R: Reach + Drop + Send,
    K: Clock + Drop + Send,
    S: Shelf + Drop + Send,
    W: Threads + Wait + Sync,
    Y: WorkerLog + Drop + Send,
>(
    rt: &W,
    alloc: Global,
    cfg: &Config,
    map: &UriMap,
    slots: &mut Vec<Slot<Part<'s, 'r, L, D, R, K, S, W, Y>, L>>,
)
where
    D::L: Send,
    requires few { vec_len slots.old ≤ MAX_WORKERS }
    requires ready { All (λ s. MayBegin cfg.now map.now s.part.desk.desk (R.beside s.part.reach) (Y.broken_by s.part.log)) slots.old.items }
    ensures served { AreDone
        (WorksSlot (part_tells D.Door D.L.Meanings D.L.heard K.Clock R.Meanings R.heard R.looks S.Shelf ⟦<Y as ToldLog>⟧.told D.L.may_wait) cfg.now map.now)
        0 slots.old.items slots.new.items }
{
    let crew = Crew {
        rt,
        alloc,
        cfg,
        map,
    };
    work_in_all(rt, slots.as_mut_slice(), &crew);
}

/// Work that is done in each slot of a run, by the slot's place.
trait Work<Q> {
    ghost use Rattle.std.specs.Prelude.{ℕ};

    // the work may be done in this slot, of this number
    ghost may: { Self → ℕ → Q → Type 0 };

    // the work was done in this slot, of this number
    ghost did: { Self → ℕ → Q → Q → Type 0 };

    fn work(&self, number: usize, slot: &mut Q)
        requires { may self.now number slot.old }
        ensures { did self.now number slot.old slot.new };
}

/// Does the work in all slots, by a thread for each.
fn work_in_all<Q: Send, X: Work<Q> + Sync, W: Threads + Sync>(rt: &W, slots: &mut [Q], todo: &X)
    requires may { (i : ℕ) (d : Q) → i < length slots.old → X.may todo.now i (slice_index_or slots.old i d) }
    ensures worked { InEach (X.did todo.now) slots.old slots.new }
    ensures len { length slots.new ≡ length slots.old }
{
    let count = slots.len().max(1);
    thread::for_each_mut(
        rt,
        slots,
        count,
        &|number: usize, slot: &mut Q|
            requires { X.may todo.now number slot.old }
            ensures { X.did todo.entry.now number slot.old slot.new }
        {
            todo.work(number, slot);
        },
    );
}

/// What all workers of a run serve by.
#[derive(Drop)]
struct Crew<'a, W> {
    rt: &'a W,
    alloc: Global,
    cfg: &'a Config,
    map: &'a UriMap,
}

impl<'a, 's, 'r, L: SiteName, D: Door, R: Reach, K: Clock, S: Shelf, W: Wait, Y: WorkerLog> Work<
    Slot<Part<'s, 'r, L, D, R, K, S, W, Y>, L>,
> for Crew<'a, W> {
    ghost use Rattle.std.specs.Prelude.{◌<◌};
    ghost use Rattle.jk_server.specs.declared.workers.TheConstants.{MAX_WORKERS};
    ghost use Rattle.jk_server.specs.Parts.{WorksSlot};
    ghost use Rattle.jk_server.specs.PartTells.{part_tells};
    ghost use Rattle.jk_server.specs.Worker.{MayBegin};

    ghost may = { λ crew number slot. (number < MAX_WORKERS)
        × MayBegin crew.cfg.now crew.map.now slot.part.desk.desk (R.beside slot.part.reach) (Y.broken_by slot.part.log) };

    ghost did = { λ crew number a b. let told = part_tells D.Door D.L.Meanings D.L.heard K.Clock R.Meanings R.heard R.looks S.Shelf ⟦<Y as ToldLog>⟧.told D.L.may_wait in
        WorksSlot told crew.cfg.now crew.map.now number a b };

    fn work(&self, number: usize, slot: &mut Slot<Part<'s, 'r, L, D, R, K, S, W, Y>, L>) {
        slot.end = serve_part(
            self.rt,
            self.alloc,
            self.cfg,
            self.map,
            number as u32,
            &mut slot.part,
        );
    }
}

/// Makes room for what `count` workers leave.
pub(crate) fn room_for<L, V: Drop, G: Drop>(
    alloc: Global,
    count: usize,
) -> Result<Ran<L, V, G>, NoMemory>
    ensures { IfOk result (λ r. HasRoomForEnds count r) }
{
    Ok(Ran {
        workers: Vec::with_capacity(alloc, count)?,
        leaving: Vec::with_capacity(alloc, count)?,
        gears: Vec::with_capacity(alloc, count)?,
    })
}

/// Takes all slots apart, once the workers ended.
pub(crate) fn empty_slots<
    's,
    'r,
    L: SiteName,
    D: Drop,
    G: Dial + Drop,
    T: Tape + Drop,
    K: Drop,
    S: Shelf + Drop,
    O: Timed + Drop,
    R,
>(
    slots: Vec<GearSlot<'s, 'r, L, D, G, T, K, S, O, R>>,
    ran: &mut Ran<L, Leaving<L, ()>, Gear<D, G, T, K, S, O>>,
)
    requires over { All (λ s. WorkerIsOver s) slots.items }
    requires room { HasRoomForEnds (vec_len slots) ran.old }
    ensures { AllFour (λ s gear left end. LeavesSlot s gear left end)
        slots.entry.items ran.new.gears.items ran.new.leaving.items ran.new.workers.items }
{
    let mut slots = slots.into_iter();
    empty_each(&mut slots, ran);
}

/// As `empty_slots`, over slots that the caller lends.
fn empty_each<
    's,
    'r,
    L: SiteName,
    D: Drop,
    G: Dial + Drop,
    T: Tape + Drop,
    K: Drop,
    S: Shelf + Drop,
    O: Timed + Drop,
    R,
>(
    slots: &mut IntoIter<GearSlot<'s, 'r, L, D, G, T, K, S, O, R>>,
    ran: &mut Ran<L, Leaving<L, ()>, Gear<D, G, T, K, S, O>>,
)
    requires over { All (λ s. WorkerIsOver s) slots.old.rest.items }
    requires room { HasRoomForEnds (length slots.old.rest.items) ran.old }
    ensures { AllFour (λ s gear left end. LeavesSlot s gear left end)
        slots.old.rest.items ran.new.gears.items ran.new.leaving.items ran.new.workers.items }
{
    'slots: while let Some(slot) = slots.next() {
        let (gear, left, end) = leave_slot(slot);
        put_left(ran, end, left, gear);
    }
}

/// Takes a slot apart into the gear, what the worker's desk left, and how the worker ended.
fn leave_slot<'s, 'r, L: SiteName, D, G: Dial, T: Tape, K, S: Shelf, O: Timed, R>(
    slot: GearSlot<'s, 'r, L, D, G, T, K, S, O, R>,
) -> (Gear<D, G, T, K, S, O>, Leaving<L, ()>, WorkerEnd<L>)
    requires over { WorkerIsOver slot }
    ensures left { LeavesSlot slot.entry result.0 result.1 result.2 }
{
    let Slot { part, end } = slot;
    let (gear, left) = gear_of(part);
    (gear, left, end)
}

/// Adds what a worker left, after what the workers before it left.
fn put_left<L, V: Drop, G: Drop>(ran: &mut Ran<L, V, G>, end: WorkerEnd<L>, left: V, gear: G)
    requires { HasSpace 1 ran.old }
    ensures { PutsLeft ran.old ran.new end left gear }
{
    ran.workers.push_reserved(end);
    ran.leaving.push_reserved(left);
    ran.gears.push_reserved(gear);
}
