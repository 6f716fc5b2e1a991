//! The two ledgers of a Site, that of its entries and that of the cuts of its journals, and the parts of both with which desks begin.

use crate::site::SiteName;
use std::marker::{Model, PhantomData};
use std::sync::ledger::{Blank, Ledger, Share};

/// The ledger that counts how often a journal of the Site of this name was cut. It has as many parts as that of the entries.
pub struct CutLedger<L> {
    of: PhantomData<L>,
}

impl<L: SiteName> Ledger for CutLedger<L> {
    ghost name = { L.cuts_name };

    ghost parts = { L.parts };
}

/// The ledgers of a Site that isn't open yet.
#[derive(Drop)]
pub struct SiteBlank {
    pub entries: Blank,
    pub cuts: Blank,
}

impl SiteBlank {
    ghost use Rattle.std.specs.Prelude.{◌≡◌};

    /// Each in so many parts.
    pub fn new(parts: u64) -> SiteBlank
        ensures { (result.entries.parts ≡ parts) × (result.cuts.parts ≡ parts) }
    {
        SiteBlank {
            entries: Blank::new(parts),
            cuts: Blank::new(parts),
        }
    }
}

/// As many parts of both ledgers, by which no cut was counted yet. A contract sees what it has of that of the entries.
#[derive(Drop)]
pub struct DeskShare<L: SiteName> {
    entries: Share<L>,
    cuts: Share<CutLedger<L>>,
}

impl<L: SiteName> Model for DeskShare<L> {
    ghost use Rattle.std.specs.Prelude.{◌≡◌};
    ghost use Rattle.lb_shared.specs.Notes.{PartNote};

    ghost Value = { PartNote };

    ghost view = { λ s. record { parts = s.entries.parts; amount = s.entries.amount } };

    ghost invariant = { λ s. (s.cuts.parts ≡ s.entries.parts) × (s.cuts.amount ≡ 0) };
}

impl<L: SiteName> DeskShare<L> {
    ghost use Rattle.std.specs.Prelude.{◌≡◌, ◌+◌, ◌≤◌};

    pub(crate) fn new(entries: Share<L>, cuts: Share<CutLedger<L>>) -> DeskShare<L>
        requires even { cuts.parts ≡ entries.parts }
        requires none { cuts.amount ≡ 0 }
        ensures { result ≡ record { parts = entries.parts; amount = entries.amount } }
    {
        DeskShare { entries, cuts }
    }

    /// Splits off so many parts, while nothing was counted.
    pub fn split_off(&mut self, parts: u64) -> DeskShare<L>
        requires enough { parts ≤ self.old.parts }
        requires nothing { self.old.amount ≡ 0 }
        ensures taken { result ≡ record { parts = parts; amount = 0 } }
        ensures left { (self.new.parts + parts ≡ self.old.parts) × (self.new.amount ≡ 0) }
    {
        DeskShare {
            entries: self.entries.split_off(parts, 0),
            cuts: self.cuts.split_off(parts, 0),
        }
    }

    pub(crate) fn into_shares(self) -> (Share<L>, Share<CutLedger<L>>)
        ensures entries { (result.0.parts ≡ self.parts) × (result.0.amount ≡ self.amount) }
        ensures cuts { (result.1.parts ≡ self.parts) × (result.1.amount ≡ 0) }
    {
        let DeskShare { entries, cuts } = self;
        (entries, cuts)
    }
}
