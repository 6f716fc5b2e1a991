//! A worker for each door.
ghost use Rattle.std.specs.Prelude.{◌≡◌, ◌+◌, ◌≤◌, ◌++◌, [], length, map, vec_capacity, vec_len, IfErr, IfOk};
ghost use Rattle.std.specs.List.{AllZip};
ghost use Rattle.jk_io.specs.Doors.{side};
ghost use Rattle.ajp_container.specs.Served.{AreEachServed, AreServedDoors, ServesAt};
ghost use Rattle.ajp_container.specs.declared.workers.Slot.{Slot as AnySlot};

use crate::app_config::AppConfig;
use crate::has_door::HasDoor;
use crate::worker_ends::{ContainerRun, ContainerRunEnd, ContainerWorker, DoorList};
use jk_io::{Door, ListOf, NoMemory};
use std::alloc::Global;
use std::sync::Wait;
use std::thread::{self, Threads};

/// What has a door, and how its worker ended.
#[derive(Drop)]
struct Slot<Q> {
    holder: Q,
    end: ContainerWorker,
}

/// The memory of a run: a slot for each worker, and room for what the run gives back.
#[derive(Drop)]
struct Memory<Q> {
    slots: Vec<Slot<Q>>,
    room: Room<Q>,
}

/// The room for what a run gives back.
#[derive(Drop)]
struct Room<Q> {
    workers: Vec<ContainerWorker>,
    back: Vec<Q>,
}

/// Serves each door by a worker of its own, and waits for all of them. For want of memory the doors come back, and none
/// was asked.
pub fn run_container<D: Door + Drop + Send, R: Threads + Wait + Sync>(
    rt: &R,
    alloc: Global,
    app: &AppConfig,
    doors: Vec<D>,
) -> Result<ContainerRunEnd<D>, DoorList<D>>
where
    D::L: Send,
    ensures served { IfOk result (λ e. let at = side D.coming D.left D.faults in
        AreEachServed app.now D.L.Meanings (map at doors.items) (map at e.doors) e.workers) }
    ensures unasked { IfErr result (λ back. back ≡ doors.items) }
{
    match serve_doors::<D, D, R>(rt, alloc, app, doors) {
        Ok(ContainerRun { workers, back }) => Ok(ContainerRunEnd {
            workers,
            doors: ListOf::from_vec(back),
        }),
        Err(doors) => Err(ListOf::from_vec(doors)),
    }
}

/// Serves the door of each of these by a worker of its own, and waits for all of them. All come back, in order, and nothing
/// but their doors was used. For want of memory no door was asked.
pub fn serve_doors<D: Door + Drop + Send, Q: HasDoor<D> + Drop + Send, R: Threads + Wait + Sync>(
    rt: &R,
    alloc: Global,
    app: &AppConfig,
    holders: Vec<Q>,
) -> Result<ContainerRun<Q>, Vec<Q>>
where
    D::L: Send,
    ensures served { IfOk result (λ run. let at = side D.coming D.left D.faults in
        AreEachServed app.now D.L.Meanings (map (λ q. at (Q.door q)) holders.items) (map (λ q. at (Q.door q)) run.back.items) run.workers) }
    ensures kept { IfOk result (λ run. AllZip (λ before after. after ≡ Q.with_door before (Q.door after)) holders.items run.back.items) }
    ensures unasked { IfErr result (λ back. back.items ≡ holders.items) }
{
    match memory_for(alloc, holders.len()) {
        Ok(memory) => Ok(run_in::<D, Q, R>(rt, alloc, app, holders, memory)),
        Err(NoMemory) => Err(holders),
    }
}

/// Takes the memory for `count` workers.
fn memory_for<Q: Drop>(alloc: Global, count: usize) -> Result<Memory<Q>, NoMemory>
    ensures slots { IfOk result (λ m. (m.slots.items ≡ []) × (count ≤ vec_capacity m.slots)) }
    ensures none { IfOk result (λ m. (m.room.workers.items ≡ []) × (m.room.back.items ≡ [])) }
    ensures room { IfOk result (λ m. (count ≤ vec_capacity m.room.workers) × (count ≤ vec_capacity m.room.back)) }
{
    Ok(Memory {
        slots: Vec::with_capacity(alloc, count)?,
        room: Room {
            workers: Vec::with_capacity(alloc, count)?,
            back: Vec::with_capacity(alloc, count)?,
        },
    })
}

/// A run in its memory.
fn run_in<D: Door + Drop + Send, Q: HasDoor<D> + Drop + Send, R: Threads + Wait + Sync>(
    rt: &R,
    alloc: Global,
    app: &AppConfig,
    holders: Vec<Q>,
    memory: Memory<Q>,
) -> ContainerRun<Q>
where
    D::L: Send,
    requires slots { (memory.slots.items ≡ []) × (vec_len holders ≤ vec_capacity memory.slots) }
    requires none { (memory.room.workers.items ≡ []) × (memory.room.back.items ≡ []) }
    requires room { (vec_len holders ≤ vec_capacity memory.room.workers) × (vec_len holders ≤ vec_capacity memory.room.back) }
    ensures served { let at = side D.coming D.left D.faults in
        AreEachServed app.now D.L.Meanings (map (λ q. at (Q.door q)) holders.items) (map (λ q. at (Q.door q)) result.back.items) result.workers }
    ensures kept { AllZip (λ before after. after ≡ Q.with_door before (Q.door after)) holders.items result.back.items }
{
    let Memory { slots, room } = memory;
    let mut slots = slots;
    fill_slots(&mut slots, holders);
    serve_all::<D, Q, R>(rt, alloc, app, slots.as_mut_slice());
    end_of(slots, room)
}

/// What the slots hold after a run.
fn end_of<Q: Drop>(slots: Vec<Slot<Q>>, room: Room<Q>) -> ContainerRun<Q>
    requires none { (room.workers.items ≡ []) × (room.back.items ≡ []) }
    requires room { (vec_len slots ≤ vec_capacity room.workers) × (vec_len slots ≤ vec_capacity room.back) }
    ensures workers { result.workers ≡ map (λ (s : AnySlot Q). s.end) slots.items }
    ensures back { result.back.items ≡ map (λ (s : AnySlot Q). s.holder) slots.items }
{
    let Room {
        mut workers,
        mut back,
    } = room;
    empty_slots(slots, &mut workers, &mut back);
    ContainerRun {
        workers: ListOf::from_vec(workers),
        back,
    }
}

/// Puts each of these into a slot.
fn fill_slots<Q: Drop>(slots: &mut Vec<Slot<Q>>, holders: Vec<Q>)
    requires none { slots.old.items ≡ [] }
    requires room { vec_len holders ≤ vec_capacity slots.old }
    ensures { map (λ (s : AnySlot Q). s.holder) slots.new.items ≡ holders.items }
{
    'holders: for holder in holders {
        slots.push_reserved(Slot {
            holder,
            end: ContainerWorker::NoMemory,
        });
    }
}

/// A worker for each slot.
fn serve_all<D: Door + Drop + Send, Q: HasDoor<D> + Drop + Send, R: Threads + Wait + Sync>(
    rt: &R,
    alloc: Global,
    app: &AppConfig,
    slots: &mut [Slot<Q>],
)
where
    D::L: Send,
    ensures served { AreServedDoors (ServesAt app.now D.L.Meanings (side D.coming D.left D.faults) Q.door Q.with_door)
        (λ (s : AnySlot Q). s.holder) (λ (s : AnySlot Q). s.end) slots.old slots.new }
    ensures len { length slots.new ≡ length slots.old }
{
    let count = slots.len().max(1);
    thread::for_each_mut(
        rt,
        slots,
        count,
        &|_, slot| {
            serve_slot::<D, Q, R>(rt, alloc, app, slot);
        },
    );
}

/// The work of one worker.
fn serve_slot<D: Door, Q: HasDoor<D>, R: Wait>(
    rt: &R,
    alloc: Global,
    app: &AppConfig,
    slot: &mut Slot<Q>,
)
    ensures { ServesAt app.now D.L.Meanings (side D.coming D.left D.faults) Q.door Q.with_door
        slot.old.holder slot.new.holder slot.new.end }
{
    slot.end = slot.holder.serve_door(rt, alloc, app);
}

/// Takes slots apart.
fn empty_slots<Q: Drop>(slots: Vec<Slot<Q>>, workers: &mut Vec<ContainerWorker>, back: &mut Vec<Q>)
    requires none { (workers.old.items ≡ []) × (back.old.items ≡ []) }
    requires room { (vec_len slots ≤ vec_capacity workers.old) × (vec_len slots ≤ vec_capacity back.old) }
    ensures workers { workers.new.items ≡ map (λ (s : AnySlot Q). s.end) slots.items }
    ensures back { back.new.items ≡ map (λ (s : AnySlot Q). s.holder) slots.items }
{
    'slots: for slot in slots {
        let Slot { holder, end } = slot;
        workers.push_reserved(end);
        back.push_reserved(holder);
    }
}
