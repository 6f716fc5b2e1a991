//! How many entries of a balancer aren't in files, and when a hold of its journal may begin.
ghost use Rattle.std.specs.Prelude.{◌≡◌, ◌↔◌, ◌-◌, ◌+◌, ◌≤◌, ◌^◌, min, IfSome, IsSome, IsTrue};
ghost use Rattle.gear_worlds.specs.Unkept.{MayBegin, RestsShort, most_unkept};

/// By how many entries a journal at which no hold is may be longer than where it is cut.
const OVER_AT_REST: u64 = 1;

/// Of a balancer: its entries that are in no file, with those that holds under way may add, and the number of these holds.
#[derive(Clone, Copy)]
pub(crate) struct Unkept {
    entries: u64,
    holds: u64,
}

impl Unkept {
    /// No entry, and no hold.
    pub(crate) fn none() -> Unkept
        ensures { (result.entries ≡ 0) × (result.holds ≡ 0) }
    {
        Unkept {
            entries: 0,
            holds: 0,
        }
    }

    /// Lets a hold begin that may add so many, if it may now.
    pub(crate) fn begin(self, entries: u64, cut_at: u32) -> Option<Unkept>
        ensures when { IsSome result ↔ MayBegin self entries cut_at }
        ensures entries { IfSome result (λ after. after.entries ≡ min (self.entries + entries) (2 ^ 64 - 1)) }
        ensures holds { IfSome result (λ after. after.holds ≡ min (self.holds + 1) (2 ^ 64 - 1)) }

        // What is unkept stays within the most that may be.
        ensures bound { RestsShort self cut_at → entries ≤ 2 → IfSome result (λ after. after.entries ≤ most_unkept cut_at) }
    {
        if self.may_begin(entries, cut_at) {
            Some(self.with_hold(entries))
        } else {
            None
        }
    }

    // Whether a hold that may add so many may begin.
    fn may_begin(self, entries: u64, cut_at: u32) -> bool
        ensures { IsTrue result ↔ MayBegin self entries cut_at }
    {
        self.holds == 0 || self.entries.saturating_add(entries) <= u64::from(cut_at) + OVER_AT_REST
    }

    /// A hold begins that may add so many.
    pub(crate) fn with_hold(self, entries: u64) -> Unkept
        ensures entries { result.entries ≡ min (self.entries + entries) (2 ^ 64 - 1) }
        ensures holds { result.holds ≡ min (self.holds + 1) (2 ^ 64 - 1) }
    {
        Unkept {
            entries: self.entries.saturating_add(entries),
            holds: self.holds.saturating_add(1),
        }
    }

    /// A hold is over that didn't add so many of its entries.
    pub(crate) fn settled(self, unused: u64) -> Unkept
        ensures entries { result.entries ≡ self.entries - unused }
        ensures holds { result.holds ≡ self.holds - 1 }
    {
        Unkept {
            entries: self.entries.saturating_sub(unused),
            holds: self.holds.saturating_sub(1),
        }
    }

    /// A part with so many entries is written, or won't be.
    pub(crate) fn without(self, entries: u64) -> Unkept
        ensures entries { result.entries ≡ self.entries - entries }
        ensures holds { result.holds ≡ self.holds }
    {
        Unkept {
            entries: self.entries.saturating_sub(entries),
            holds: self.holds,
        }
    }
}
