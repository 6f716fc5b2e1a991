//! A discord: where receipts and kept entries differ first.

use lb_model::Entry;
use std::marker::{Model, PhantomData};

/// The first number at which the receipts of a Site and its kept entries differ, with what each has there.
#[derive(Debug, Drop)]
pub struct Discord<L> {
    lb: u32,
    seq: u64,
    receipt: Option<Entry>,
    entry: Option<Entry>,
    of: PhantomData<L>,
}

impl<L> Model for Discord<L> {
    ghost use Rattle.lb_closing.specs.Closings.{DiscordNote};

    ghost Value = { DiscordNote };

    ghost view = { λ d. record { lb = d.lb; seq = d.seq; receipt = d.receipt; entry = d.entry } };
}

impl<L> Discord<L> {
    ghost use Rattle.std.specs.Prelude.{◌≡◌, Option};
    ghost use Rattle.lb_model.specs.declared.journal.Entry.{Entry};

    // Only a comparison makes one.
    pub(crate) fn new(lb: u32, seq: u64, receipt: Option<Entry>, entry: Option<Entry>) -> Discord<L>
        ensures { result ≡ record { lb = lb; seq = seq; receipt = receipt; entry = entry } }
    {
        Discord {
            lb,
            seq,
            receipt,
            entry,
            of: PhantomData,
        }
    }

    pub fn lb(&self) -> u32
        ensures { result ≡ self.now.lb }
    {
        self.lb
    }

    pub fn seq(&self) -> u64
        ensures { result ≡ self.now.seq }
    {
        self.seq
    }

    /// The entry of a receipt with this number.
    pub fn receipt(&self) -> Option<Entry>
        ensures { result ≡ self.now.receipt }
    {
        self.receipt
    }

    /// The kept entry with this number.
    pub fn entry(&self) -> Option<Entry>
        ensures { result ≡ self.now.entry }
    {
        self.entry
    }
}
