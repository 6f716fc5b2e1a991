//! The threads of a drill that take turns at one Book, each with a pass.
ghost use Rattle.std.specs.Prelude.{◌≡◌, ◌<◌, ◌≤◌, ℕ, [], ◌∷◌, length, map, vec_capacity, vec_len, IfOk, Some, slice_index_or};
ghost use Rattle.std.specs.List.{All};
ghost use Rattle.lb_model.specs.Journal.{members};
ghost use Rattle.lb_passes.specs.Holds.{entries_in, own_in};
ghost use Rattle.lb_passes.specs.PassDesks.{table_in, view_of};
ghost use Rattle.lb_passes.specs.declared.pass_book.PassBook.{PassBook};
ghost use Rattle.drill.specs.Bodies.{all_together};
ghost use Rattle.drill.specs.Counts.{AreMade, IsMadeBy, MakesEach};
ghost use Rattle.drill.specs.Turns.{AreDrillPasses, LeavesPasses};
ghost use Rattle.lb_passes.specs.Placed.{AreBack, AreEachBack, AreFrom, IsUnused};

use crate::body_sum::together;
use crate::plan::{MAX_THREADS, Plan};
use crate::site::DrillSite;
use crate::thread::serve_thread;
use jk_io::NoMemory;
use lb_passes::{Pass, PassBook, PassList, PassPlace, PlacedDesk};
use std::alloc::Global;
use std::sync::Wait;
use std::thread::{self, Threads};

/// A thread's desk and number, and the bytes of its replies' bodies once all its requests were made.
#[derive(Drop)]
struct PassSlot<'b, 'r, P: PassPlace, R> {
    desk: PlacedDesk<'b, 'r, P, R>,
    number: u32,
    made: Option<u64>,
    ghost caller: { desk.desk.desk.caller ≡ Some number },
    ghost none_held: { desk.desk.desk.held ≡ [] },
    ghost sized: { desk.desk.desk.sizes ≡ 2 ∷ [] },
}

/// What the threads leave: their passes, and the bytes of all bodies.
#[derive(Drop)]
pub(crate) struct PassesLeft {
    pub(crate) passes: PassList,
    pub(crate) bodies: u64,
}

// A slot with a pass.
fn slot_of<'b, 'r, P: PassPlace, R>(
    alloc: Global,
    rt: &'r R,
    books: &'b [PassBook],
    pass: Pass,
    number: u32,
) -> Result<PassSlot<'b, 'r, P, R>, NoMemory>
    requires book { (b : PassBook) × (books.now ≡ b ∷ []) × (table_in b ≡ P.table) }
    requires pass { IsUnused P.table P.origin P.given pass }
    requires number { pass.number ≡ number }
    requires two { members P.origin.opening ≡ 2 }
    ensures number { IfOk result (λ s. s.number ≡ number) }
    ensures fresh { IfOk result (λ s. s.desk.desk.desk.receipts ≡ []) }
{
    Ok(PassSlot {
        desk: PlacedDesk::new(alloc, rt, books, pass)?,
        number,
        made: None,
    })
}

// A slot for each pass, in order.
fn slots_for<'b, 'r, P: PassPlace, R>(
    alloc: Global,
    rt: &'r R,
    books: &'b [PassBook],
    passes: PassList,
) -> Result<Vec<PassSlot<'b, 'r, P, R>>, NoMemory>
    requires { AreDrillPasses P.table P.origin P.given books.now passes }
    ensures numbers { IfOk result (λ slots. AreFrom 0 (map (λ s. s.number) slots.items)) }
    ensures count { IfOk result (λ slots. vec_len slots ≡ P.given) }
    ensures fresh { IfOk result (λ slots. All (λ s. s.desk.desk.desk.receipts ≡ []) slots.items) }
{
    let passes = passes.into_vec();
    let mut slots = Vec::with_capacity(alloc, passes.len())?;
    'passes: for pass in passes {
        let number = slots.len() as u32;
        slots.push_reserved(slot_of(alloc, rt, books, pass, number)?);
    }
    Ok(slots)
}

// The work of one thread.
fn serve_slot<P: PassPlace, R: Wait>(
    alloc: Global,
    site: &DrillSite,
    plan: Plan,
    slot: &mut PassSlot<'_, '_, P, R>,
)
    ensures number { slot.new.number ≡ slot.old.number }
    ensures made { IsMadeBy site.now plan slot.old.number slot.old.desk.desk.desk.receipts (slot.new.desk.desk.desk.receipts, slot.new.made) }
{
    let served = serve_thread(alloc, site, plan, slot.number, &mut slot.desk);
    slot.made = served.ok();
}

// A thread for each slot.
fn serve_slots<'b, 'r, P: PassPlace + Send + Sync, R: Threads + Wait + Sync>(
    rt: &R,
    alloc: Global,
    site: &DrillSite,
    plan: Plan,
    slots: &mut [PassSlot<'b, 'r, P, R>],
)
    requires few { length slots.old ≤ MAX_THREADS }
    ensures numbers { (i : ℕ) (d : _) → i < length slots.old → (slice_index_or slots.new i d).number ≡ (slice_index_or slots.old i d).number }
    ensures made { MakesEach site.now plan (λ _ s. s.number) (λ s. (s.desk.desk.desk.receipts, s.made)) slots.old slots.new }
    ensures len { length slots.new ≡ length slots.old }
{
    let count = slots.len().max(1);
    thread::for_each_mut(
        rt,
        slots,
        count,
        &|_place: usize, slot: &mut PassSlot<P, R>|
            ensures { (slot.new.number ≡ slot.old.number) × IsMadeBy site.entry.now plan slot.old.number
                slot.old.desk.desk.desk.receipts (slot.new.desk.desk.desk.receipts, slot.new.made) }
        {
            serve_slot(alloc, site, plan, slot);
        },
    );
}

// Takes slots apart. Where each thread made all its requests, it hands out the bytes of all bodies.
fn empty_slots<'b, 'r, P: PassPlace, R>(
    slots: Vec<PassSlot<'b, 'r, P, R>>,
    passes: &mut Vec<Pass>,
) -> Option<u64>
    requires none { passes.old.items ≡ [] }
    requires room { vec_len slots ≤ vec_capacity passes.old }
    ensures numbers { map (λ p. p.number) passes.new.items ≡ map (λ s. s.number) slots.entry.items }
    ensures back { AreEachBack P.table P.origin P.given passes.new.items }
    ensures own { map (λ p. own_in (view_of p)) passes.new.items ≡ map (λ s. entries_in s.desk.desk.desk.receipts) slots.entry.items }
    ensures bodies { result ≡ all_together (map (λ s. s.made) slots.entry.items) }
{
    let mut bodies = Some(0);
    'slots: for slot in slots {
        let PassSlot {
            desk,
            number: _,
            made,
        } = slot;
        bodies = together(bodies, made);
        passes.push_reserved(desk.into_pass());
    }
    bodies
}

// As `serve_slots`, over the slots of a list.
fn serve_each<'b, 'r, P: PassPlace + Send + Sync, R: Threads + Wait + Sync>(
    rt: &R,
    alloc: Global,
    site: &DrillSite,
    plan: Plan,
    slots: &mut Vec<PassSlot<'b, 'r, P, R>>,
)
    requires few { vec_len slots.old ≤ MAX_THREADS }
    requires numbers { AreFrom 0 (map (λ s. s.number) slots.old.items) }
    requires fresh { All (λ s. s.desk.desk.desk.receipts ≡ []) slots.old.items }
    ensures made { AreMade site.now plan (map (λ s. (s.desk.desk.desk.receipts, s.made)) slots.new.items) }
    ensures numbers { map (λ s. s.number) slots.new.items ≡ map (λ s. s.number) slots.old.items }
    ensures len { vec_len slots.new ≡ vec_len slots.old }
{
    serve_slots(rt, alloc, site, plan, slots.as_mut_slice());
}

/// Makes all requests over a Book whose callers take turns, those of each thread over a desk with one of the passes, and
/// gives the passes back. The memory for them is taken first.
pub(crate) fn serve_in_turns<'b, P: PassPlace + Send + Sync, R: Threads + Wait + Sync>(
    rt: &R,
    alloc: Global,
    site: &DrillSite,
    plan: Plan,
    books: &'b [PassBook],
    passes: PassList,
) -> Result<PassesLeft, NoMemory>
    requires place { AreDrillPasses P.table P.origin P.given books.now passes }
    requires threads { P.given ≡ plan.threads }
    ensures back { IfOk result (λ left. AreBack P.table P.origin P.given left.passes) }

    // The bytes of the bodies are those of the rows of the threads' sessions, and the passes' own entries are their receipts'.
    ensures counted { IfOk result (LeavesPasses plan.seed plan.threads plan.requests) }
{
    let mut slots = slots_for::<P, R>(alloc, rt, books, passes)?;
    let mut passes = Vec::with_capacity(alloc, slots.len())?;
    serve_each(rt, alloc, site, plan, &mut slots);
    match empty_slots(slots, &mut passes) {
        Some(bodies) => Ok(PassesLeft {
            passes: PassList::from_vec(passes),
            bodies,
        }),
        None => Err(NoMemory),
    }
}
