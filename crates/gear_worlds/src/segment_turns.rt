//! How far each journal of a run is in files: its segments are written in order, whichever threads cut them, and a hold waits
//! that might leave more entries in no file than may be lost.
ghost use Rattle.std.specs.Prelude.{◌≡◌, ◌≢◌, ◌↔◌, ◌⊎◌, ◌+◌, ◌-◌, ◌^◌, ◌<◌, ◌≤◌, true, false, min, vec_len, IfOk, IsTrue};
ghost use Rattle.std.specs.Arc.{arc_value};
ghost use Rattle.std.specs.Duration.{as_nanos};
ghost use Rattle.gear_worlds.specs.Unkept.{MayBegin};

use crate::unkept::Unkept;
use jk_io::NoMemory;
use std::alloc::Global;
use std::sync::{Arc, Condvar, Mutex, Wait};
use std::time::{Clock, Duration};

/// For how long a thread waits for the next segment that others write, in milliseconds.
const WAIT_MILLIS: u64 = 1_000;

// For how long a thread waits at a time: a second.
fn longest_wait() -> Duration
    ensures { as_nanos result ≡ 10 ^ 9 }
{
    Duration::from_millis(WAIT_MILLIS)
}

/// How far the journal of a balancer is in files.
#[derive(Drop)]
struct Progress {
    /// The entries before this number are in files.
    end: u64,
    /// How many aren't.
    unkept: Unkept,
    /// A segment can't be written, or not in time. Nobody waits until one is.
    is_late: bool,
    /// How many threads wait until their hold may begin.
    waiting: u64,
}

impl Progress {
    // Nothing is in files yet of a journal that begins with this number, and nobody waits.
    fn begun(first: u64) -> Progress
        ensures end { result.end ≡ first }
        ensures none { (result.unkept.entries ≡ 0) × (result.unkept.holds ≡ 0) × (result.is_late ≡ false) × (result.waiting ≡ 0) }
    {
        Progress {
            end: first,
            unkept: Unkept::none(),
            is_late: false,
            waiting: 0,
        }
    }

    // Whether it is still waited until the entries before this number are in files.
    fn is_before(&self, number: u64) -> bool
        ensures { IsTrue result ↔ (self.now.end < number) × (self.now.is_late ≡ false) }
    {
        self.end < number && !self.is_late
    }

    // A second went by. Where no segment was written in it, they are late.
    fn pass_a_second(&mut self, before: u64)
        ensures stood { self.old.end ≡ before → self.new ≡ record self.old { is_late = true } }
        ensures went_on { self.old.end ≢ before → self.new ≡ self.old }
    {
        if self.end == before {
            self.is_late = true;
        }
    }

    // Lets a hold begin that may add so many, if it may now, and says so. It always may where a segment is late, and where
    // the journal is never cut.
    fn begins(&mut self, entries: u64, cut_at: u32) -> bool
        ensures when { IsTrue result ↔ ((self.old.is_late ≡ true) ⊎ (cut_at ≡ 0) ⊎ MayBegin self.old.unkept entries cut_at) }
        ensures entries { IsTrue result → self.new.unkept.entries ≡ min (self.old.unkept.entries + entries) (2 ^ 64 - 1) }
        ensures holds { IsTrue result → self.new.unkept.holds ≡ min (self.old.unkept.holds + 1) (2 ^ 64 - 1) }
        ensures unbegun { result ≡ false → self.new ≡ self.old }
        ensures same { self.new ≡ record self.old { unkept = self.new.unkept } }
    {
        if self.is_late || cut_at == 0 {
            self.unkept = self.unkept.with_hold(entries);
            return true;
        }
        match self.unkept.begin(entries, cut_at) {
            Some(unkept) => {
                self.unkept = unkept;
                true
            }
            None => false,
        }
    }

    // Whether somebody waits is the answer of these two.
    fn settle(&mut self, unused: u64) -> bool
        ensures awaited { IsTrue result ↔ (0 < self.old.waiting) }
        ensures entries { self.new.unkept.entries ≡ self.old.unkept.entries - unused }
        ensures holds { self.new.unkept.holds ≡ self.old.unkept.holds - 1 }
        ensures same { self.new ≡ record self.old { unkept = self.new.unkept } }
    {
        self.unkept = self.unkept.settled(unused);
        self.waiting > 0
    }

    // Entries came to files: those before this number, so many more. It is late no more.
    fn come_to(&mut self, end: u64, entries: u64) -> bool
        ensures awaited { IsTrue result ↔ (0 < self.old.waiting) }
        ensures end { (self.old.end ≤ end → self.new.end ≡ end) × (end ≤ self.old.end → self.new.end ≡ self.old.end) }
        ensures entries { self.new.unkept.entries ≡ self.old.unkept.entries - entries }
        ensures holds { self.new.unkept.holds ≡ self.old.unkept.holds }
        ensures in_time { self.new.is_late ≡ false }
        ensures same { self.new.waiting ≡ self.old.waiting }
    {
        self.end = self.end.max(end);
        self.unkept = self.unkept.without(entries);
        self.is_late = false;
        self.waiting > 0
    }

    // So many entries are lost. Nobody waits.
    fn be_late(&mut self, lost: u64)
        ensures entries { self.new.unkept.entries ≡ self.old.unkept.entries - lost }
        ensures holds { self.new.unkept.holds ≡ self.old.unkept.holds }
        ensures late { self.new.is_late ≡ true }
        ensures same { (self.new.end ≡ self.old.end) × (self.new.waiting ≡ self.old.waiting) }
    {
        self.unkept = self.unkept.without(lost);
        self.is_late = true;
    }
}

/// The journal of a balancer.
#[derive(Drop)]
struct Place {
    progress: Mutex<Progress>,
    /// Told where a hold may begin that waits.
    may_begin: Condvar,
    /// Told where a segment is written, or late.
    written: Condvar,
}

impl Place {
    fn new(first: u64) -> Place {
        Place {
            progress: Mutex::new(Progress::begun(first)),
            may_begin: Condvar::new(),
            written: Condvar::new(),
        }
    }

    // Waits until the entries before this number are in files, for a second at most, and says whether nobody need wait more.
    fn wait_for_turn<R: Wait + Clock>(&self, rt: &R, number: u64) -> bool {
        let guard = self.progress.lock(rt);
        let before = guard.end;
        let most = longest_wait();
        let (mut now, waited) = self
            .written
            .wait_timeout_while(rt, guard, most, |now| now.is_before(number));
        if waited.timed_out() {
            now.pass_a_second(before);
        }
        !waited.timed_out()
    }

    // Lets a hold begin that may add so many, as soon as it may.
    fn begin<R: Wait + Clock>(&self, rt: &R, entries: u64, cut_at: u32) {
        if self.begins_at_once(rt, entries, cut_at) {
            return;
        }
        for _ in rt.forever() {
            if self.wait_to_begin(rt, entries, cut_at) {
                self.call_next(rt);
                return;
            }
        }
    }

    fn begins_at_once<R: Wait>(&self, rt: &R, entries: u64, cut_at: u32) -> bool {
        self.progress.lock(rt).begins(entries, cut_at)
    }

    // Waits until a hold may begin, for a second at most, and says whether it began.
    fn wait_to_begin<R: Wait + Clock>(&self, rt: &R, entries: u64, cut_at: u32) -> bool {
        let mut guard = self.progress.lock(rt);
        guard.waiting = guard.waiting.saturating_add(1);
        let before = guard.end;
        let most = longest_wait();
        let (mut now, waited) = self
            .may_begin
            .wait_timeout_while(rt, guard, most, |now| !now.begins(entries, cut_at));
        now.waiting = now.waiting.saturating_sub(1);
        if waited.timed_out() {
            now.pass_a_second(before);
        }
        !waited.timed_out()
    }

    // The next hold that waits looks whether it may begin.
    fn call_next<R: Wait>(&self, rt: &R) {
        if self.has_waiting(rt) {
            self.may_begin.notify_one();
        }
    }

    fn has_waiting<R: Wait>(&self, rt: &R) -> bool {
        self.progress.lock(rt).waiting > 0
    }

    // A hold is over that didn't add so many of its entries.
    fn settle<R: Wait>(&self, rt: &R, unused: u64) {
        let is_awaited = self.progress.lock(rt).settle(unused);
        if is_awaited {
            self.may_begin.notify_one();
        }
    }

    // A part with so many entries is written: those before this number are in files.
    fn come_to<R: Wait>(&self, rt: &R, end: u64, entries: u64) {
        let is_awaited = self.progress.lock(rt).come_to(end, entries);
        self.written.notify_all();
        if is_awaited {
            self.may_begin.notify_one();
        }
    }

    // A part isn't written yet, or won't be: so many entries are lost with it.
    fn be_late<R: Wait>(&self, rt: &R, lost: u64) {
        self.progress.lock(rt).be_late(lost);
        self.written.notify_all();
        self.may_begin.notify_all();
    }
}

/// How far the journals of a run are in files. It is shared by all of its shelves.
#[derive(Drop)]
pub struct SegmentTurns {
    /// Each balancer's, in order.
    places: Arc<Vec<Place>>,
}

impl SegmentTurns {
    /// Nothing is in files yet of the journals of so many balancers, which begin with this number.
    pub fn new(alloc: Global, balancers: usize, first: u64) -> Result<SegmentTurns, NoMemory>
        ensures { IfOk result (λ turns. vec_len (arc_value turns.places) ≡ balancers) }
    {
        let mut places = Vec::with_capacity(alloc, balancers)?;
        for _ in 0..balancers {
            places.push(Place::new(first))?;
        }
        Ok(SegmentTurns {
            places: Arc::new(alloc, places)?,
        })
    }

    /// The same ones, for another shelf.
    pub fn share(&self) -> Result<SegmentTurns, NoMemory>
        ensures { IfOk result (λ turns. arc_value turns.places ≡ arc_value self.now.places) }
    {
        Ok(SegmentTurns {
            places: self.places.clone()?,
        })
    }

    /// Waits until the entries of a balancer before this number are in files, as long as one of its segments is written within
    /// each second. After a second without one nobody waits until a segment is written again.
    pub(crate) fn wait_until<R: Wait + Clock>(&self, rt: &R, lb: u32, number: u64) {
        if let Some(place) = self.places.get(lb as usize) {
            for _ in rt.forever() {
                if place.wait_for_turn(rt, number) {
                    return;
                }
            }
        }
    }

    /// Waits until a hold may begin that may add so many entries to a balancer, whose journal is cut at `cut_at`: until few
    /// enough are in no file, or no other hold is under way. As long as a segment is written within each second.
    pub(crate) fn begin<R: Wait + Clock>(&self, rt: &R, lb: u32, entries: usize, cut_at: u32) {
        if let Some(place) = self.places.get(lb as usize) {
            place.begin(rt, entries as u64, cut_at);
        }
    }

    /// That hold is over, and its segment was put away; it didn't add so many of them.
    pub(crate) fn settle<R: Wait>(&self, rt: &R, lb: u32, unused: usize) {
        if let Some(place) = self.places.get(lb as usize) {
            place.settle(rt, unused as u64);
        }
    }

    /// A segment of a balancer with so many entries is written: the entries before this number are in files.
    pub(crate) fn come_to<R: Wait>(&self, rt: &R, lb: u32, end: u64, entries: u64) {
        if let Some(place) = self.places.get(lb as usize) {
            place.come_to(rt, end, entries);
        }
    }

    /// A segment of a balancer can't be written now. Nobody waits for it.
    pub(crate) fn be_late<R: Wait>(&self, rt: &R, lb: u32) {
        if let Some(place) = self.places.get(lb as usize) {
            place.be_late(rt, 0);
        }
    }

    /// A segment of a balancer with so many entries won't be written. Nobody waits for it.
    pub(crate) fn give_up<R: Wait>(&self, rt: &R, lb: u32, entries: u64) {
        if let Some(place) = self.places.get(lb as usize) {
            place.be_late(rt, entries);
        }
    }
}
