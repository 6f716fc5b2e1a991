//! A world in memory.
ghost use Rattle.std.specs.Prelude.{◌≡◌, ◌↔◌, ◌+◌, ◌<◌, ◌≤◌, [], ◌∷◌, ◌++◌, Contains, IfOk, IsTrue, OnErr, OnOk, drop, length, map, reverse, true, false, vec_capacity, vec_len};
ghost use Rattle.jk_io.specs.Memory.{DialledNext, counted};
ghost use Rattle.jk_io.specs.Told.{Rose};
ghost use Rattle.gear_worlds.specs.Worlds.{gear_of, next_plan};

use crate::mem_plan::{MemGear, MemPlan, MemPlanList, gear_of};
use conn_pool::MemTape;
use gear_parts::{GearOrder, World};
use jk_io::{
    Bytes, IoError, Link, ListOf, MemDial, MemDoor, MemLink, NoMemory, NumberList, StepClock,
};
use lb_shared::MemShelf;
use site_reports::AcceptedSite;
use std::alloc::Global;
use std::marker::Model;
use std::snapshot::Snapshot;

/// A world that makes its gears by plans, in turn, and keeps those that come back. After the last plan its gears are empty.
/// Its clients come by links of type L.
#[derive(Drop)]
pub struct MemWorld<L> {
    /// The plans to come, the next one last.
    plans: Vec<MemPlan<L>>,
    /// The logs to come, the next one last.
    logs: Vec<MemLink>,
    /// Each gear as it was handed out.
    handed: Vec<Snapshot<MemGear<L>>>,
    back: Vec<MemGear<L>>,
    /// How many gears are out; the room for them is taken.
    out: usize,
    failing: NumberList,
    calls: u64,
    failed: u64,
}

impl<L> Model for MemWorld<L> {
    ghost use Rattle.std.specs.Prelude.{◌≡◌, ◌+◌, ◌≤◌, map, reverse, vec_len, vec_capacity};
    ghost use Rattle.gear_worlds.specs.Worlds.{MemWorldState};

    ghost Value = { MemWorldState L };

    ghost view = { λ w. record {
      plans = reverse w.plans.items;
      logs = reverse w.logs.items;
      handed = map (λ gear. gear.value) w.handed.items;
      back = w.back.items;
      out = w.out;
      failing = w.failing;
      calls = w.calls;
      faults = w.failed;
    } };

    // each gear that was handed out came back or is out
    ghost invariant = { λ w. (vec_len w.back + w.out ≤ vec_capacity w.back) × (vec_len w.handed ≡ vec_len w.back + w.out) };
}

impl<L> MemWorld<L> {
    /// A world with these plans and logs to come, in order. The calls of `failing`, numbered from 0 over both `gear` and
    /// `log`, fail. No memory is taken.
    pub fn new(
        alloc: Global,
        plans: MemPlanList<L>,
        logs: ListOf<MemLink>,
        failing: NumberList,
    ) -> MemWorld<L>
        ensures { result ≡ record { plans = plans; logs = logs; handed = []; back = []; out = 0; failing = failing; calls = 0; faults = 0 } }
    {
        let mut plans = plans.into_vec();
        plans.reverse();
        let mut logs = logs.into_vec();
        logs.reverse();
        MemWorld {
            plans,
            logs,
            handed: Vec::new(alloc),
            back: Vec::new(alloc),
            out: 0,
            failing,
            calls: 0,
            failed: 0,
        }
    }

    /// The gears that came back, in order; all others that were handed out are out.
    pub fn back(&self) -> &[MemGear<L>]
        ensures back { result.now ≡ self.now.back }
        ensures others { length self.now.handed ≡ length result.now + self.now.out }
    {
        self.back.as_slice()
    }

    /// How many calls failed.
    pub fn faults(&self) -> u64
        ensures { result ≡ self.now.faults }
    {
        self.failed
    }
}

impl<L: Drop> MemWorld<L> {
    // Counts a call, and says whether it is one of those that are to fail.
    fn call_fails(&mut self) -> bool
        ensures counted { self.new.calls ≡ counted self.old.calls }
        ensures planned { IsTrue result ↔ Contains self.old.failing self.old.calls }
        ensures rose { result ≡ true → Rose self.old.faults self.new.faults }
        ensures no_fewer { self.old.faults ≤ self.new.faults }
        ensures uncounted { result ≡ false → self.new.faults ≡ self.old.faults }
        ensures gears { (self.new.plans ≡ self.old.plans) × (self.new.handed ≡ self.old.handed) × (self.new.back ≡ self.old.back) }
        ensures same { (self.new.logs ≡ self.old.logs) × (self.new.out ≡ self.old.out) × (self.new.failing ≡ self.old.failing) }
    {
        fails(&self.failing, &mut self.calls, &mut self.failed)
    }

    // Makes a gear by the next plan, and notes it as handed out.
    fn next_gear(&mut self, alloc: Global, clients: Option<u64>) -> Result<MemGear<L>, NoMemory>
        ensures planned { IfOk result (λ gear. gear ≡ gear_of clients (next_plan self.old.plans)) }
        ensures later { OnOk result (self.new.plans ≡ drop 1 self.old.plans) }
        ensures handed { IfOk result (λ gear. self.new.handed ≡ self.old.handed ++ gear ∷ []) }
        ensures one_more { OnOk result (self.new.out ≡ self.old.out + 1) }
        ensures err { OnErr result ((self.new.plans ≡ self.old.plans) × (self.new.handed ≡ self.old.handed) × (self.new.out ≡ self.old.out)) }
        ensures same { (self.new.back ≡ self.old.back) × (self.new.logs ≡ self.old.logs) × (self.new.failing ≡ self.old.failing) }
        ensures uncounted { (self.new.calls ≡ self.old.calls) × (self.new.faults ≡ self.old.faults) }
    {
        make_room(&mut self.back, &mut self.handed, self.out)?;
        self.out += 1;
        Ok(hand_out(alloc, &mut self.plans, &mut self.handed, clients))
    }
}

// Counts a call, and says whether it is one of those that are to fail.
fn fails(failing: &NumberList, calls: &mut u64, failed: &mut u64) -> bool
    ensures counted { calls.new ≡ counted calls.old }
    ensures planned { IsTrue result ↔ Contains failing.now calls.old }
    ensures rose { result ≡ true → Rose failed.old failed.new }
    ensures no_fewer { failed.old ≤ failed.new }
    ensures same { result ≡ false → failed.new ≡ failed.old }
{
    let fails = failing.as_slice().contains(calls);
    *calls = calls.saturating_add(1);
    if fails {
        *failed = failed.saturating_add(1);
    }
    fails
}

// Room for one more gear to come back, and to be noted as handed out.
fn make_room<L>(
    back: &mut Vec<MemGear<L>>,
    handed: &mut Vec<Snapshot<MemGear<L>>>,
    out: usize,
) -> Result<(), NoMemory>
    requires few { vec_len handed.old ≡ vec_len back.old + out }
    ensures same { (back.new.items ≡ back.old.items) × (handed.new.items ≡ handed.old.items) }
    ensures len { (vec_len back.new ≡ vec_len back.old) × (vec_len handed.new ≡ vec_len handed.old) }
    ensures grown { vec_capacity back.old ≤ vec_capacity back.new }
    ensures room { OnOk result ((vec_len back.new + (out + 1) ≤ vec_capacity back.new) × (vec_len handed.new < vec_capacity handed.new)) }
{
    back.reserve(out + 1)?;
    handed.reserve(1)?;
    Ok(())
}

// Makes a gear by the next plan, and notes it as handed out.
fn hand_out<L: Drop>(
    alloc: Global,
    plans: &mut Vec<MemPlan<L>>,
    handed: &mut Vec<Snapshot<MemGear<L>>>,
    clients: Option<u64>,
) -> MemGear<L>
    requires room { vec_len handed.old < vec_capacity handed.old }
    ensures planned { result ≡ gear_of clients (next_plan (reverse plans.old.items)) }
    ensures later { reverse plans.new.items ≡ drop 1 (reverse plans.old.items) }
    ensures handed { map (λ gear. gear.value) handed.new.items ≡ map (λ gear. gear.value) handed.old.items ++ result ∷ [] }
    ensures len { vec_len handed.new ≡ vec_len handed.old + 1 }
{
    let plan = next_plan(alloc, plans);
    let gear = gear_of(alloc, plan, clients);
    handed.push_reserved(Snapshot::of(&gear));
    gear
}

impl<L: Link + Drop + Send> World for MemWorld<L> {
    ghost use Rattle.std.specs.Prelude.{Some};
    ghost use Rattle.gear_worlds.specs.Worlds.{CallsAsTold};

    type D = MemDoor<L>;

    type G = MemDial;

    type T = MemTape;

    type K = StepClock;

    type S = MemShelf;

    type O = MemLink;

    ghost handed = { λ w. Some w.handed };

    ghost came_back = { λ w. Some w.back };

    ghost out = { λ w. w.out };

    ghost faults = { λ w. w.faults };

    fn show_site(&mut self, _alloc: Global, _site: &AcceptedSite)
        ensures { self.new ≡ self.old }
    {}

    fn gear(
        &mut self,
        alloc: Global,
        _number: u32,
        asked: &GearOrder<'_>,
    ) -> Result<MemGear<L>, IoError>
        // The plans' gears are handed out in their order.
        ensures planned { IfOk result (λ gear. gear ≡ gear_of asked.now.clients (next_plan self.old.plans)) }
        ensures later { OnOk result (self.new.plans ≡ drop 1 self.old.plans) }
        ensures handed { IfOk result (λ gear. self.new.handed ≡ self.old.handed ++ gear ∷ []) }
        ensures one_more { OnOk result (self.new.out ≡ self.old.out + 1) }
        ensures err { OnErr result ((self.new.plans ≡ self.old.plans) × (self.new.handed ≡ self.old.handed) × (self.new.out ≡ self.old.out)) }
        ensures same { (self.new.back ≡ self.old.back) × (self.new.logs ≡ self.old.logs) × (self.new.failing ≡ self.old.failing) }
        ensures call { CallsAsTold self.old self.new result }
    {
        if self.call_fails() {
            return Err(IoError::Failed);
        }
        Ok(self.next_gear(alloc, asked.clients)?)
    }

    fn log(&mut self, alloc: Global, _dir: &Bytes, _number: u32) -> Result<MemLink, IoError>
        // The logs are given in their order, and after the last one logs with nothing to come.
        ensures next { IfOk result (λ log. DialledNext self.old.logs log self.new.logs) }
        ensures err { OnErr result (self.new.logs ≡ self.old.logs) }
        ensures same { (self.new.plans ≡ self.old.plans) × (self.new.handed ≡ self.old.handed) × (self.new.back ≡ self.old.back)
            × (self.new.out ≡ self.old.out) × (self.new.failing ≡ self.old.failing) }
        ensures call { CallsAsTold self.old self.new result }
    {
        if self.call_fails() {
            return Err(IoError::Failed);
        }
        match self.logs.pop() {
            Some(log) => Ok(log),
            None => Ok(MemLink::new(alloc, Bytes::new(alloc), NumberList::new(alloc))),
        }
    }

    fn back(&mut self, gear: MemGear<L>)
        requires out { 0 < self.old.out }
        ensures back { self.new.back ≡ self.old.back ++ gear ∷ [] }
        ensures one_less { self.new.out + 1 ≡ self.old.out }
        ensures same { (self.new.plans ≡ self.old.plans) × (self.new.logs ≡ self.old.logs) × (self.new.handed ≡ self.old.handed) }
        ensures uncounted { (self.new.failing ≡ self.old.failing) × (self.new.calls ≡ self.old.calls) × (self.new.faults ≡ self.old.faults) }
    {
        self.out -= 1;
        self.back.push_reserved(gear);
    }
}

// The next plan, and an empty one after the last.
fn next_plan<L: Drop>(alloc: Global, plans: &mut Vec<MemPlan<L>>) -> MemPlan<L>
    ensures next { result ≡ next_plan (reverse plans.old.items) }
    ensures later { reverse plans.new.items ≡ drop 1 (reverse plans.old.items) }
{
    match plans.pop() {
        Some(plan) => plan,
        None => MemPlan::empty(alloc),
    }
}
