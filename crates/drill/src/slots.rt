//! A desk for each thread of a drill, and the threads.
ghost use Rattle.std.specs.Prelude.{◌≡◌, ◌+◌, ◌<◌, ◌≤◌, ℕ, [], ◌∷◌, length, map, sum_by, vec_capacity, vec_len, IfOk, OnOk, Some, true};
ghost use Rattle.std.specs.List.{All};
ghost use Rattle.drill.specs.Bodies.{all_together};
ghost use Rattle.drill.specs.Counts.{AreMade, CountsDrill, IsMadeBy, MakesEach};
ghost use Rattle.drill.specs.Threads.{IsWholeDesk};

use crate::body_sum::together;
use crate::plan::{MAX_THREADS, Plan};
use crate::site::DrillSite;
use crate::thread::serve_thread;
use jk_io::{NoMemory, NumberList};
use lb_closing::LeavingList;
use lb_shared::{DeskShare, KeptList, Leaving, MemShelf, SharedDesk, SharedSite, SiteName};
use std::alloc::Global;
use std::sync::Wait;
use std::thread::{self, Threads};

/// A thread's desk, and the bytes of its replies' bodies once all its requests were made.
#[derive(Drop)]
struct Slot<'s, 'r, L: SiteName, R> {
    desk: SharedDesk<'s, 'r, L, MemShelf, R>,
    made: Option<u64>,
    ghost whole: { IsWholeDesk (2 ∷ []) desk.desk },
}

/// A share of a Site's ledger, to which no entry was counted yet.
#[derive(Drop)]
pub(crate) struct UnusedShare<L: SiteName> {
    pub(crate) share: DeskShare<L>,
    pub ghost amount: { share.amount ≡ 0 },
}

/// What the threads leave: their desks' receipts, of which none was forgotten, and the bytes of all bodies.
#[derive(Drop)]
pub(crate) struct ThreadsLeft<L: SiteName> {
    pub(crate) leaving: LeavingList<L, MemShelf>,
    pub(crate) bodies: u64,
    pub ghost none_forgot: { All (λ l. l.forgotten ≡ 0) leaving },
}

// Adds a slot with a part of the ledger at the end.
fn put_slot<'s, 'r, L: SiteName, R>(
    alloc: Global,
    slots: &mut Vec<Slot<'s, 'r, L, R>>,
    shared: &'s SharedSite<'r, L, R>,
    part: UnusedShare<L>,
)
    requires part { part.share.parts ≡ 1 }
    requires sizes { L.sizes ≡ 2 ∷ [] }
    requires room { vec_len slots.old < vec_capacity slots.old }
    requires fresh { All (λ s. s.desk.desk.receipts ≡ []) slots.old.items }
    ensures fresh { All (λ s. s.desk.desk.receipts ≡ []) slots.new.items }
    ensures len { vec_len slots.new ≡ vec_len slots.old + 1 }
    ensures capacity { vec_capacity slots.new ≡ vec_capacity slots.old }
{
    let UnusedShare { share } = part;
    let shelf = MemShelf::new(KeptList::new(alloc), NumberList::new(alloc));
    slots.push_reserved(Slot {
        desk: SharedDesk::new(alloc, shared, share, shelf),
        made: None,
    });
}

// A slot for each part of the share.
fn fill_slots<'s, 'r, L: SiteName, R>(
    alloc: Global,
    slots: &mut Vec<Slot<'s, 'r, L, R>>,
    shared: &'s SharedSite<'r, L, R>,
    unused: &mut UnusedShare<L>,
    threads: u32,
)
    requires none { slots.old.items ≡ [] }
    requires room { threads ≤ vec_capacity slots.old }
    requires parts { unused.old.share.parts ≡ threads }
    requires sizes { L.sizes ≡ 2 ∷ [] }
    ensures count { vec_len slots.new ≡ threads }
    ensures fresh { All (λ s. s.desk.desk.receipts ≡ []) slots.new.items }
{
    'slots: for _ in 0..threads {
        let share = unused.share.split_off(1);
        put_slot(alloc, slots, shared, UnusedShare { share });
    }
}

// The slots of the threads.
fn slots_for<'s, 'r, L: SiteName, R>(
    alloc: Global,
    shared: &'s SharedSite<'r, L, R>,
    unused: UnusedShare<L>,
    threads: u32,
) -> Result<Vec<Slot<'s, 'r, L, R>>, NoMemory>
    requires parts { unused.share.parts ≡ threads }
    requires sizes { L.sizes ≡ 2 ∷ [] }
    ensures count { IfOk result (λ slots. vec_len slots ≡ threads) }
    ensures fresh { IfOk result (λ slots. All (λ s. s.desk.desk.receipts ≡ []) slots.items) }
{
    let mut unused = unused;
    let mut slots = Vec::with_capacity(alloc, threads as usize)?;
    fill_slots(alloc, &mut slots, shared, &mut unused, threads);
    Ok(slots)
}

// The work of one thread.
fn serve_slot<L: SiteName, R: Wait>(
    alloc: Global,
    site: &DrillSite,
    plan: Plan,
    number: usize,
    slot: &mut Slot<'_, '_, L, R>,
)
    requires few { number < MAX_THREADS }
    ensures made { IsMadeBy site.now plan number slot.old.desk.desk.receipts (slot.new.desk.desk.receipts, slot.new.made) }
{
    let served = serve_thread(alloc, site, plan, number as u32, &mut slot.desk);
    slot.made = served.ok();
}

// A thread for each slot.
fn serve_slots<'s, 'r, L: SiteName + Send + Sync, R: Threads + Wait + Sync>(
    rt: &R,
    alloc: Global,
    site: &DrillSite,
    plan: Plan,
    slots: &mut [Slot<'s, 'r, L, R>],
)
    requires few { length slots.old ≤ MAX_THREADS }
    ensures made { MakesEach site.now plan (λ place _. place) (λ s. (s.desk.desk.receipts, s.made)) slots.old slots.new }
    ensures len { length slots.new ≡ length slots.old }
{
    let count = slots.len().max(1);
    thread::for_each_mut(
        rt,
        slots,
        count,
        &|number: usize, slot: &mut Slot<L, R>|
            requires few { number < MAX_THREADS }
            ensures { IsMadeBy site.entry.now plan number slot.old.desk.desk.receipts (slot.new.desk.desk.receipts, slot.new.made) }
        {
            serve_slot(alloc, site, plan, number, slot);
        },
    );
}

// Takes slots apart. Where each thread made all its requests, it hands out the bytes of all bodies.
fn empty_slots<'s, 'r, L: SiteName, R>(
    slots: Vec<Slot<'s, 'r, L, R>>,
    leaving: &mut Vec<Leaving<L, MemShelf>>,
) -> Option<u64>
    requires none { leaving.old.items ≡ [] }
    requires room { vec_len slots ≤ vec_capacity leaving.old }
    ensures parts { sum_by (λ l. l.share.parts) leaving.new.items ≡ vec_len slots.entry }
    ensures count { length leaving.new.items ≡ vec_len slots.entry }
    ensures none_forgot { All (λ l. l.forgotten ≡ 0) leaving.new.items }
    ensures receipts { map (λ l. l.receipts) leaving.new.items ≡ map (λ s. s.desk.desk.receipts) slots.entry.items }
    ensures bodies { result ≡ all_together (map (λ s. s.made) slots.entry.items) }
{
    let mut bodies = Some(0);
    'slots: for slot in slots {
        let Slot { desk, made } = slot;
        bodies = together(bodies, made);
        leaving.push_reserved(desk.leave());
    }
    bodies
}

// What the desks leave, in this memory; none where a thread didn't make all its requests.
fn left_in<'s, 'r, L: SiteName, R>(
    slots: Vec<Slot<'s, 'r, L, R>>,
    leaving: Vec<Leaving<L, MemShelf>>,
) -> Result<ThreadsLeft<L>, NoMemory>
    requires none { leaving.items ≡ [] }
    requires room { vec_len slots ≤ vec_capacity leaving }
    ensures parts { IfOk result (λ left. sum_by (λ l. l.share.parts) left.leaving ≡ vec_len slots.entry) }
    ensures count { IfOk result (λ left. length left.leaving ≡ vec_len slots.entry) }
    ensures receipts { IfOk result (λ left. map (λ l. l.receipts) left.leaving ≡ map (λ s. s.desk.desk.receipts) slots.entry.items) }
    ensures bodies { IfOk result (λ left. all_together (map (λ s. s.made) slots.entry.items) ≡ Some left.bodies) }
{
    let mut leaving = leaving;
    match empty_slots(slots, &mut leaving) {
        Some(bodies) => Ok(ThreadsLeft {
            leaving: LeavingList::from_vec(leaving),
            bodies,
        }),
        None => Err(NoMemory),
    }
}

// As `serve_slots`, over the slots of a list.
fn serve_each<'s, 'r, L: SiteName + Send + Sync, R: Threads + Wait + Sync>(
    rt: &R,
    alloc: Global,
    site: &DrillSite,
    plan: Plan,
    slots: &mut Vec<Slot<'s, 'r, L, R>>,
)
    requires few { vec_len slots.old ≤ MAX_THREADS }
    requires fresh { All (λ s. s.desk.desk.receipts ≡ []) slots.old.items }
    ensures made { AreMade site.now plan (map (λ s. (s.desk.desk.receipts, s.made)) slots.new.items) }
    ensures len { vec_len slots.new ≡ vec_len slots.old }
{
    serve_slots(rt, alloc, site, plan, slots.as_mut_slice());
}

/// Makes all requests, those of each thread over a desk of its own, and has the desks leave. The memory for what they leave is
/// taken first.
pub(crate) fn serve_all<'s, 'r, L: SiteName + Send + Sync, R: Threads + Wait + Sync>(
    rt: &R,
    alloc: Global,
    site: &DrillSite,
    plan: Plan,
    shared: &'s SharedSite<'r, L, R>,
    unused: UnusedShare<L>,
) -> Result<ThreadsLeft<L>, NoMemory>
    requires parts { unused.share.parts ≡ plan.threads }
    requires sizes { L.sizes ≡ 2 ∷ [] }
    ensures parts { IfOk result (λ left. sum_by (λ l. l.share.parts) left.leaving ≡ plan.threads) }
    ensures some { IfOk result (λ left. 0 < length left.leaving) }

    // The bytes of the bodies are those of the rows of the threads' sessions, and the receipts those of their desks.
    ensures counted { IfOk result (λ left. CountsDrill plan.seed plan.threads plan.requests
        (map (λ l. l.receipts) left.leaving) left.bodies) }
{
    let mut slots = slots_for(alloc, shared, unused, plan.threads)?;
    let leaving = Vec::with_capacity(alloc, slots.len())?;
    serve_each(rt, alloc, site, plan, &mut slots);
    left_in(slots, leaving)
}
