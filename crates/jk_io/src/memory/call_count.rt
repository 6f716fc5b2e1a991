//! Which calls of an object in memory fail.
ghost use Rattle.std.specs.Prelude.{◌≡◌, ◌≤◌, ◌↔◌, ◌⊎◌, true, false, IsTrue, Contains};
ghost use Rattle.jk_io.specs.Told.{Rose};
ghost use Rattle.jk_io.specs.Memory.{counted};

use crate::list_of::NumberList;

/// The calls that an object in memory was asked, and those of them that failed.
#[derive(Drop)]
pub struct CallCount {
    pub(crate) calls: u64,
    pub(crate) failed: u64,
}

impl CallCount {
    pub(crate) fn new() -> CallCount
        ensures { (result.calls ≡ 0) × (result.failed ≡ 0) }
    {
        CallCount {
            calls: 0,
            failed: 0,
        }
    }

    /// Counts a call, and says whether it is one of those that are to fail, numbered from 0. It doesn't fail yet.
    pub(crate) fn is_planned(&mut self, failing: &NumberList) -> bool
        ensures counted { self.new.calls ≡ counted self.old.calls }
        ensures planned { IsTrue result ↔ Contains failing.now self.old.calls }
        ensures same { self.new.failed ≡ self.old.failed }
    {
        let planned = failing.as_slice().contains(&self.calls);
        self.calls = self.calls.saturating_add(1);
        planned
    }

    /// Counts a call, and says whether it is one of those that are to fail, numbered from 0.
    pub(crate) fn fails(&mut self, failing: &NumberList) -> bool
        ensures counted { self.new.calls ≡ counted self.old.calls }
        ensures planned { IsTrue result ↔ Contains failing.now self.old.calls }
        ensures rose { result ≡ true → Rose self.old.failed self.new.failed }
        ensures no_fewer { self.old.failed ≤ self.new.failed }
        ensures same { result ≡ false → self.new.failed ≡ self.old.failed }
    {
        let fails = self.is_planned(failing);
        if fails {
            self.fail();
        }
        fails
    }

    /// Counts a call, and says whether it is to fail: as one of `failing`, numbered from 0, or since a failure is due.
    pub(crate) fn fails_or(&mut self, failing: &NumberList, due: bool) -> bool
        ensures counted { self.new.calls ≡ counted self.old.calls }
        ensures planned { IsTrue result ↔ (Contains failing.now self.old.calls ⊎ IsTrue due) }
        ensures rose { result ≡ true → Rose self.old.failed self.new.failed }
        ensures no_fewer { self.old.failed ≤ self.new.failed }
        ensures same { result ≡ false → self.new.failed ≡ self.old.failed }
    {
        if self.fails(failing) {
            return true;
        }
        if due {
            self.fail();
        }
        due
    }

    /// Counts a call that failed.
    pub(crate) fn fail(&mut self)
        ensures rose { Rose self.old.failed self.new.failed }
        ensures no_fewer { self.old.failed ≤ self.new.failed }
        ensures same { self.new.calls ≡ self.old.calls }
    {
        self.failed = self.failed.saturating_add(1);
    }
}
