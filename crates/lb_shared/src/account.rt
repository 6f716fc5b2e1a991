//! The account that a hold of the lock adds to: a part of both ledgers, and receipts.
ghost use Rattle.std.specs.Prelude.{◌≡◌, ◌<◌};

use crate::ledgers::CutLedger;
use crate::site::{SiteName, SiteReceipt};
use jk_io::NoMemory;
use std::sync::ledger::Share;

/// A part of the ledger, as much of that of the cuts, and the receipts of entries that were added through it.
#[derive(Drop)]
pub(crate) struct Account<L: SiteName> {
    pub(crate) share: Share<L>,
    pub(crate) cuts: Share<CutLedger<L>>,
    pub(crate) receipts: Vec<SiteReceipt<L>>,
    ghost part: { 0 < share.parts },
    ghost even: { cuts.parts ≡ share.parts },
}

impl<L: SiteName> Account<L> {
    ghost use Rattle.std.specs.Prelude.{◌≡◌, ◌+◌, ◌≤◌, [], vec_len, vec_capacity, OnOk};

    /// Takes the room for so many receipts more.
    pub(crate) fn reserve(&mut self, more: usize) -> Result<(), NoMemory>
        ensures room { OnOk result (vec_len self.old.receipts + more ≤ vec_capacity self.new.receipts) }
        ensures no_less { vec_capacity self.old.receipts ≤ vec_capacity self.new.receipts }
        ensures receipts { self.new.receipts.items ≡ self.old.receipts.items }
        ensures share { (self.new.share ≡ self.old.share) × (self.new.cuts ≡ self.old.cuts) }
    {
        self.receipts.reserve(more)?;
        Ok(())
    }

    /// Drops the receipts. Their room stays.
    pub(crate) fn clear(&mut self)
        ensures receipts { self.new.receipts.items ≡ [] }
        ensures room { vec_capacity self.new.receipts ≡ vec_capacity self.old.receipts }
        ensures share { (self.new.share ≡ self.old.share) × (self.new.cuts ≡ self.old.cuts) }
    {
        self.receipts.clear();
    }
}
