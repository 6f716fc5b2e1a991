//! A link in memory.
ghost use Rattle.std.specs.Prelude.{◌≡◌, ℕ, ◌<◌, ◌≤◌, ◌++◌, ◌↔◌, ◌==◌, List, [], length, take, drop, min, Option, Some, true, false, IsTrue, IsOk, IsErr, IsErrOf, IfOk, OnOk, OnErr, if◌then◌else◌};
ghost use Rattle.jk_io.specs.Told.{Rose, HasCause};
ghost use Rattle.jk_io.specs.Memory.{MemLinkState, NeverFails, ReadIsToFail, WriteIsToFail, counted};

use crate::byte_list::Bytes;
use crate::failures::{IoError, NoMemory};
use crate::list_of::NumberList;
use crate::memory::call_count::CallCount;
use crate::memory::link_plan::{LinkPlan, is_due, up_to_next};
use crate::traits::streams::{Awaited, Link, Meanings, Sink, Source};
use std::alloc::Global;
use std::marker::Model;

/// A link that gives the bytes it was made with, and keeps those that it takes.
#[derive(Drop)]
pub struct MemLink {
    text: Bytes,
    /// How many bytes of the text were given.
    at: usize,
    sent: Bytes,
    plan: LinkPlan,
    count: CallCount,
    /// How many reads failed since a byte was given.
    reads_failed: u64,
    /// How many writes failed since a byte was taken.
    writes_failed: u64,
}

impl Model for MemLink {
    ghost use Rattle.std.specs.Prelude.{◌≡◌, ◌≤◌, ℕ, Some, take, drop, length};
    ghost use Rattle.jk_io.specs.Memory.{MemLinkState, NeverFails};

    ghost Value = { MemLinkState };

    ghost view = { λ l. record {
      incoming = drop l.at l.text;
      received = take l.at l.text;
      sent = l.sent;
      plan = l.plan;
      calls = l.count.calls;
      reads_failed = l.reads_failed;
      writes_failed = l.writes_failed;
      faults = l.count.failed;
    } };

    ghost invariant = { λ l. (l.at ≤ length l.text) × (NeverFails l.plan → l.count.failed ≡ 0) };
}

impl MemLink {
    /// A link that has these bytes to come. The calls of `failing`, numbered from 0, fail.
    pub fn new(alloc: Global, incoming: Bytes, failing: NumberList) -> MemLink
        ensures came { (result.incoming ≡ incoming) × (result.received ≡ []) × (result.sent ≡ []) }
        ensures plan { result.plan ≡ record { failing = failing; reads = []; writes = []; cuts = [] } }
        ensures none_yet { (result.calls ≡ 0) × (result.reads_failed ≡ 0) × (result.writes_failed ≡ 0) × (result.faults ≡ 0) }
    {
        let none = NumberList::new(alloc);
        MemLink::planned(
            alloc,
            incoming,
            LinkPlan {
                failing,
                reads: none,
                writes: NumberList::new(alloc),
                cuts: NumberList::new(alloc),
            },
        )
    }

    /// A link of which one read fails at each number of bytes given in `reads`, and one write at each number of
    /// bytes taken in `writes`; no call goes across such a number.
    pub fn failing_at(
        alloc: Global,
        incoming: Bytes,
        reads: NumberList,
        writes: NumberList,
    ) -> Result<MemLink, NoMemory>
        ensures came { IfOk result (λ l. (l.incoming ≡ incoming) × (l.received ≡ []) × (l.sent ≡ [])) }
        ensures plan { IfOk result (λ l. l.plan ≡ record { failing = []; reads = reads; writes = writes; cuts = [] }) }
        ensures none_yet { IfOk result (λ l. (l.calls ≡ 0) × (l.reads_failed ≡ 0) × (l.writes_failed ≡ 0) × (l.faults ≡ 0)) }
    {
        let failing = NumberList::new(alloc);
        Ok(MemLink::planned(
            alloc,
            incoming,
            LinkPlan {
                failing,
                reads,
                writes,
                cuts: NumberList::new(alloc),
            },
        ))
    }

    /// A link whose reads give no bytes across a number of bytes in `cuts`, and fail nowhere.
    pub fn in_pieces(alloc: Global, incoming: Bytes, cuts: NumberList) -> MemLink
        ensures came { (result.incoming ≡ incoming) × (result.received ≡ []) × (result.sent ≡ []) }
        ensures plan { result.plan ≡ record { failing = []; reads = []; writes = []; cuts = cuts } }
        ensures none_yet { (result.calls ≡ 0) × (result.reads_failed ≡ 0) × (result.writes_failed ≡ 0) × (result.faults ≡ 0) }
    {
        let failing = NumberList::new(alloc);
        let reads = NumberList::new(alloc);
        MemLink::planned(
            alloc,
            incoming,
            LinkPlan {
                failing,
                reads,
                writes: NumberList::new(alloc),
                cuts,
            },
        )
    }

    fn planned(alloc: Global, incoming: Bytes, plan: LinkPlan) -> MemLink
        ensures came { (result.incoming ≡ incoming) × (result.received ≡ []) × (result.sent ≡ []) }
        ensures plan { result.plan ≡ plan }
        ensures none_yet { (result.calls ≡ 0) × (result.reads_failed ≡ 0) × (result.writes_failed ≡ 0) × (result.faults ≡ 0) }
    {
        MemLink {
            text: incoming,
            at: 0,
            sent: Bytes::new(alloc),
            plan,
            count: CallCount::new(),
            reads_failed: 0,
            writes_failed: 0,
        }
    }

    /// A copy of the bytes that are still to come.
    pub fn to_come(&self, alloc: Global) -> Result<Bytes, NoMemory>
        ensures { IfOk result (λ bytes. bytes ≡ self.now.incoming) }
    {
        Bytes::from_slice(alloc, &self.text.as_slice()[self.at..])
    }

    /// The bytes that the writes took.
    pub fn sent(&self) -> &[u8]
        ensures { result.now ≡ self.now.sent }
    {
        self.sent.as_slice()
    }

    /// The bytes that the reads gave.
    pub fn received(&self) -> &[u8]
        ensures { result.now ≡ self.now.received }
    {
        &self.text.as_slice()[..self.at]
    }

    /// Counts a read, and says whether it is to fail.
    fn read_fails(&mut self) -> bool
        ensures failed { IsTrue result ↔ ReadIsToFail self.old }
        ensures tried { result ≡ true → self.new.reads_failed ≡ counted self.old.reads_failed }
        ensures cause { result ≡ true → Rose self.old.faults self.new.faults }
        ensures no_fewer { self.old.faults ≤ self.new.faults }
        ensures steady { result ≡ false → (self.new.faults ≡ self.old.faults) × (self.new.reads_failed ≡ self.old.reads_failed) }
        ensures same { self.new ≡ record self.old { calls = counted self.old.calls; reads_failed = self.new.reads_failed; faults = self.new.faults } }
    {
        let due = is_due(&self.plan.reads, self.at as u64, self.reads_failed);
        let fails = self.count.fails_or(&self.plan.failing, due);
        count_try(&mut self.reads_failed, fails);
        fails
    }

    /// Counts a write, and says whether it is to fail.
    fn write_fails(&mut self) -> bool
        ensures failed { IsTrue result ↔ WriteIsToFail self.old }
        ensures tried { result ≡ true → self.new.writes_failed ≡ counted self.old.writes_failed }
        ensures cause { result ≡ true → Rose self.old.faults self.new.faults }
        ensures no_fewer { self.old.faults ≤ self.new.faults }
        ensures steady { result ≡ false → (self.new.faults ≡ self.old.faults) × (self.new.writes_failed ≡ self.old.writes_failed) }
        ensures same { self.new ≡ record self.old { calls = counted self.old.calls; writes_failed = self.new.writes_failed; faults = self.new.faults } }
    {
        let taken = self.sent.len() as u64;
        let due = is_due(&self.plan.writes, taken, self.writes_failed);
        let fails = self.count.fails_or(&self.plan.failing, due);
        count_try(&mut self.writes_failed, fails);
        fails
    }

    // Gives the next bytes, up to the next number of the plan.
    fn give_next(&mut self, buf: &mut [u8]) -> usize
        requires { 0 < length buf.old }
        ensures count { result ≤ length buf.new }
        ensures gave { self.old.incoming ≡ take result buf.new ++ self.new.incoming }
        ensures got { self.new.received ≡ self.old.received ++ take result buf.new }
        ensures end { result ≡ 0 → self.new.incoming ≡ [] }
        ensures anew { self.new.reads_failed ≡ (if result == 0 then self.old.reads_failed else 0) }
        ensures same { self.new ≡ record self.old { incoming = self.new.incoming; received = self.new.received; reads_failed = self.new.reads_failed } }
    {
        let given = self.at as u64;
        let most = up_to_next(&self.plan.reads, given, buf.len());
        let most = up_to_next(&self.plan.cuts, given, most);
        let n = copy_front(&self.text.as_slice()[self.at..], most, buf);
        self.at += n;
        if n > 0 {
            self.reads_failed = 0;
        }
        n
    }

    // Takes bytes from the front of a piece, up to the next number of the plan.
    fn take_front(&mut self, piece: &[u8]) -> Result<usize, NoMemory>
        requires { 0 < length piece.now }
        ensures count { IfOk result (λ n. (0 < n) × (n ≤ length piece.now)) }
        ensures put { IfOk result (λ n. self.new.sent ≡ self.old.sent ++ take n piece.now) }
        ensures anew { OnOk result (self.new.writes_failed ≡ 0) }
        ensures err { OnErr result (self.new ≡ self.old) }
        ensures same { self.new ≡ record self.old { sent = self.new.sent; writes_failed = self.new.writes_failed } }
    {
        let taken = self.sent.len() as u64;
        let n = up_to_next(&self.plan.writes, taken, piece.len());
        self.sent.extend(&piece[..n])?;
        self.writes_failed = 0;
        Ok(n)
    }

    /// How many calls failed: none where the plan lets none fail.
    pub fn faults(&self) -> u64
        ensures count { result ≡ self.now.faults }
        ensures steady { NeverFails self.now.plan → result ≡ 0 }
    {
        self.count.failed
    }
}

// Counts a try that failed.
fn count_try(tries: &mut u64, fails: bool)
    ensures failed { fails ≡ true → tries.new ≡ counted tries.old }
    ensures steady { fails ≡ false → tries.new ≡ tries.old }
{
    if fails {
        *tries = tries.saturating_add(1);
    }
}

impl Meanings for MemLink {
    ghost use Rattle.std.specs.Prelude.{Some};

    type Beside = LinkPlan;

    ghost incoming = { λ l. Some l.incoming };

    ghost received = { λ l. Some l.received };

    ghost sent = { λ l. Some l.sent };

    ghost beside = { λ l. l.plan };

    ghost faults = { λ l. l.faults };
}

impl Source for MemLink {
    fn read(&mut self, buf: &mut [u8]) -> Result<usize, IoError>
        requires { 0 < length buf.old }

        ensures count { IfOk result (λ n. n ≤ length buf.new) }
        ensures gave { IfOk result (λ n. self.old.incoming ≡ take n buf.new ++ self.new.incoming) }
        ensures got { IfOk result (λ n. self.new.received ≡ self.old.received ++ take n buf.new) }
        ensures end { IfOk result (λ n. n ≡ 0 → self.new.incoming ≡ []) }
        ensures kept_on_error { OnErr result ((self.new.incoming ≡ self.old.incoming) × (self.new.received ≡ self.old.received)) }
        ensures same { (self.new.sent ≡ self.old.sent) × (self.new.plan ≡ self.old.plan) × (self.new.writes_failed ≡ self.old.writes_failed) }
        ensures cause { HasCause self.old.faults self.new.faults result }
        ensures steady { IsOk result → self.new.faults ≡ self.old.faults }

        // It fails exactly where it was told to.
        ensures failed { IsErrOf result IoError.Failed ↔ ReadIsToFail self.old }
        ensures counted { self.new.calls ≡ counted self.old.calls }
        ensures tried { IsErr result → self.new.reads_failed ≡ counted self.old.reads_failed }
        ensures anew { IfOk result (λ n. self.new.reads_failed ≡ (if n == 0 then self.old.reads_failed else 0)) }
    {
        if self.read_fails() {
            return Err(IoError::Failed);
        }
        Ok(self.give_next(buf))
    }
}

// Copies the front of a text to the front of a buffer, at most `most` bytes.
fn copy_front(text: &[u8], most: usize, buf: &mut [u8]) -> usize
    ensures count { result ≡ min most (min (length text.now) (length buf.old)) }
    ensures copied { take result buf.new ≡ take result text.now }
{
    let n = most.min(text.len().min(buf.len()));
    buf[..n].copy_from_slice(&text[..n]);
    n
}

impl Sink for MemLink {
    fn write(&mut self, piece: &[u8]) -> Result<usize, IoError>
        requires { 0 < length piece.now }

        ensures count { IfOk result (λ n. (0 < n) × (n ≤ length piece.now)) }
        ensures put { IfOk result (λ n. self.new.sent ≡ self.old.sent ++ take n piece.now) }
        ensures kept_on_error { OnErr result (self.new.sent ≡ self.old.sent) }
        ensures same { (self.new.incoming ≡ self.old.incoming) × (self.new.received ≡ self.old.received)
            × (self.new.plan ≡ self.old.plan) × (self.new.reads_failed ≡ self.old.reads_failed) }
        ensures cause { HasCause self.old.faults self.new.faults result }
        ensures steady { IsOk result → self.new.faults ≡ self.old.faults }

        // It fails exactly where it was told to, even where memory would be wanted too.
        ensures failed { IsErrOf result IoError.Failed ↔ WriteIsToFail self.old }
        ensures counted { self.new.calls ≡ counted self.old.calls }
        ensures tried { IsErrOf result IoError.Failed → self.new.writes_failed ≡ counted self.old.writes_failed }
        ensures anew { IsOk result → self.new.writes_failed ≡ 0 }
        ensures wanted { IsErrOf result IoError.NoMemory → self.new.faults ≡ self.old.faults }
    {
        if self.write_fails() {
            return Err(IoError::Failed);
        }
        Ok(self.take_front(piece)?)
    }
}

impl Link for MemLink {
    ghost use Rattle.std.specs.Prelude.{false};

    ghost may_wait = { false };

    fn await_next(&mut self, _what: Awaited) {}

    /// What it has to come is what a talk is answered with, so it always is.
    fn is_quiet(&mut self) -> bool
        ensures { (result ≡ true) × (self.new ≡ self.old) }
    {
        true
    }
}
