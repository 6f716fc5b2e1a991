//! The lists of a desk over pass books: its receipts, and the tickets that it holds.
ghost use Rattle.std.specs.Prelude.{◌+◌, ◌≤◌, length, vec_capacity};

use lb_book::Receipt;

/// What a desk keeps of its calls.
#[derive(Drop)]
pub(crate) struct DeskLists {
    pub(crate) receipts: Vec<Receipt>,
    /// Balancer and ticket of each lease that is out, in the order of the choices.
    pub(crate) held: Vec<(u32, u64)>,
    ghost roomy: { length receipts.items + length held.items ≤ vec_capacity receipts },
}
