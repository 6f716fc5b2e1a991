//! Receipts: a desk keeps one of each call that added an entry.
use jk_io::ListOf;
use lb_model::Entry;

/// An entry that a call added, with the balancer and the moment that the call was given.
#[derive(Clone, Copy, PartialEq, Eq)]
pub struct Receipt {
    /// The balancer, by its place in the configuration.
    pub lb: u32,
    /// The moment that the call was given, in seconds; the entry's own is never before that of the entry before it.
    pub given: u64,
    pub entry: Entry,
}

/// Receipts in the order of the calls.
pub type ReceiptList = ListOf<Receipt>;
