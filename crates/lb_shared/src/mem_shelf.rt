//! A shelf in memory.
ghost use Rattle.std.specs.Prelude.{◌≡◌, ◌↔◌, ◌++◌, [], ◌∷◌, IsOk, IsErrOf, OnOk, OnErr};

use crate::shelf::{Admission, Shelf};
use jk_io::{IoError, ListOf, NumberList};
use lb_model::Segment;
use std::marker::Model;

/// Segments that were kept, each with its balancer, in order.
pub type KeptList = ListOf<(u32, Segment)>;

/// A shelf that keeps its segments in a list.
#[derive(Drop)]
pub struct MemShelf {
    kept: KeptList,
    failing: NumberList,
    calls: u64,
    failed: u64,
}

impl Model for MemShelf {
    ghost use Rattle.lb_shared.specs.Shelves.{MemShelfState};

    ghost Value = { MemShelfState };

    ghost view = { λ s. record { kept = s.kept; failing = s.failing; calls = s.calls; faults = s.failed } };
}

impl MemShelf {
    ghost use Rattle.std.specs.Prelude.{◌≡◌};

    /// A shelf with these segments. The calls of `keep` in `failing`, numbered from 0, fail.
    pub fn new(kept: KeptList, failing: NumberList) -> MemShelf
        ensures { result ≡ record { kept = kept; failing = failing; calls = 0; faults = 0 } }
    {
        MemShelf {
            kept,
            failing,
            calls: 0,
            failed: 0,
        }
    }

    /// What is kept.
    pub fn kept(&self) -> &[(u32, Segment)]
        ensures { result.now ≡ self.now.kept }
    {
        self.kept.as_slice()
    }
}

impl Shelf for MemShelf {
    ghost use Rattle.std.specs.Prelude.{◌≡◌, ◌+◌, ◌-◌, ◌^◌, min, [], ◌∷◌, Contains, IsErrOf, OnErr, OnOk, Some};
    ghost use Rattle.jk_io.specs.Told.{HasCause, appended};
    ghost use Rattle.jk_io.specs.declared.failures.IoError.{IoError};

    ghost shelved = { λ s. Some s.kept };

    ghost faults = { λ s. s.faults };

    fn keep(&mut self, lb: u32, segment: Segment) -> Result<(), IoError>
        ensures kept { OnOk result (Some self.new.kept ≡ appended (Some self.old.kept) ((lb, segment) ∷ [])) }
        ensures refused { OnErr result (Some self.new.kept ≡ Some self.old.kept) }
        ensures cause { HasCause self.old.faults self.new.faults result }
        ensures stands { OnOk result (self.new.faults ≡ self.old.faults) }
        ensures wanted { IsErrOf result IoError.NoMemory → self.new.faults ≡ self.old.faults }

        // A call fails exactly where it was to fail, and counts as one fault.
        ensures planned { IsErrOf result IoError.Failed ↔ Contains self.old.failing self.old.calls }
        ensures one { IsErrOf result IoError.Failed → self.new.faults ≡ min (self.old.faults + 1) (2 ^ 64 - 1) }
        ensures calls { self.new.calls ≡ min (self.old.calls + 1) (2 ^ 64 - 1) }
        ensures steady { self.old.failing ≡ [] → self.new.faults ≡ self.old.faults }
        ensures same { self.new.failing ≡ self.old.failing }
    {
        let fails = self.failing.as_slice().contains(&self.calls);
        self.calls = self.calls.saturating_add(1);
        if fails {
            self.failed = self.failed.saturating_add(1);
            return Err(IoError::Failed);
        }
        put(&mut self.kept, (lb, segment))
    }

    fn admit(&self, lb: u32, entries: usize, _cut_at: u32) -> Admission {
        Admission::new(lb, entries)
    }

    fn settle(&self, admission: Admission, added: usize) {
        admission.unused(added);
    }

    fn failed(&self) -> u64 {
        self.failed
    }
}

// Adds an item at the end.
fn put<T: Drop>(list: &mut ListOf<T>, item: T) -> Result<(), IoError>
    ensures ok { OnOk result (list.new ≡ list.old ++ item ∷ []) }
    ensures err { OnErr result (list.new ≡ list.old) }
    ensures wanted { IsErrOf result IoError.Failed → ⊥ }
{
    match list.push(item) {
        Ok(()) => Ok(()),
        Err(_) => Err(IoError::NoMemory),
    }
}
