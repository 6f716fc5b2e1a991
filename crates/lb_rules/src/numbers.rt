//! The numbers of a journal's entries.

ghost use Rattle.std.specs.Prelude.{◌≡◌, ◌+◌, ◌≤◌, length, reverse};
ghost use Rattle.lb_model.specs.Journal.{next_of};
ghost use Rattle.lb_model.specs.declared.validity.TheConstants.{MOST_NUMBERS};

use lb_model::{Entry, Opening};

/// The number of the entry that comes after these, which are all since the opening.
pub fn next_after(opening: &Opening, entries: &[Entry]) -> u64
    requires room { opening.now.next + length entries.now ≤ MOST_NUMBERS }
    ensures value { result ≡ next_of opening.now (reverse entries.now) }
{
    opening.next + entries.len() as u64
}
