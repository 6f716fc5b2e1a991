//! The tables of a Book that has no entry yet, from its opening.

ghost use Rattle.std.specs.Prelude.{◌≡◌, ℕ, [], length, IfOk, vec_capacity};
ghost use Rattle.lb_model.specs.Multiple.{multiple_of};
ghost use Rattle.lb_model.specs.Ranges.{factors_in};
ghost use Rattle.lb_model.specs.Validity.{IsOpening};
ghost use Rattle.lb_book.specs.Kept.{IsKept};
ghost use Rattle.lb_book.specs.Shown.{AreOpened};

use crate::opened::{common_of, none_returned, opening_rows};
use crate::present::Present;
use jk_io::NoMemory;
use lb_model::{Entry, Opening};
use std::alloc::Global;

/// The fields of a Book that its opening fills.
#[derive(Drop)]
pub(crate) struct Tables {
    pub(crate) present: Present,
    pub(crate) entries: Vec<Entry>,
    pub(crate) returned: Vec<Option<u64>>,
    pub(crate) early: Vec<Option<u64>>,
}

/// The balancer as its opening leaves it.
pub(crate) fn opening_present(alloc: Global, opening: &Opening) -> Result<Present, NoMemory>
    requires { IsOpening opening.now }
    ensures rows { IfOk result (λ now. AreOpened (multiple_of (factors_in opening.now.config.members))
        opening.now.config.members opening.now.rows (length opening.now.config.members) now.rows.items) }
    ensures out { IfOk result (λ now. now.out ≡ length opening.now.out) }
    ensures rest { IfOk result (λ now. (now.at ≡ opening.now.at) × (now.maintained ≡ opening.now.maintained) × (now.chosen ≡ opening.now.chosen)) }
{
    let members = opening.config.members.as_slice();
    let common = common_of(alloc, members)?;
    let rows = opening_rows(alloc, members, opening.rows.as_slice(), common)?;
    Ok(Present {
        rows,
        out: opening.out.len() as u64,
        at: opening.at,
        maintained: opening.maintained,
        chosen: opening.chosen,
    })
}

/// The tables of a Book at its opening, with the room for the Returns of the opening's tickets.
pub(crate) fn opening_tables(
    alloc: Global,
    opening: &Opening,
    present: Present,
) -> Result<Tables, NoMemory>
    requires valid { IsOpening opening.now }
    requires rows { AreOpened (multiple_of (factors_in opening.now.config.members))
        opening.now.config.members opening.now.rows (length opening.now.config.members) present.rows.items }
    requires out { present.out ≡ length opening.now.out }
    requires rest { (present.at ≡ opening.now.at) × (present.maintained ≡ opening.now.maintained) × (present.chosen ≡ opening.now.chosen) }
    ensures kept { (v : ℕ) → IfOk result (λ t. IsKept v opening.now t.entries.items t.present t.returned.items t.early.items 0
        (vec_capacity t.entries) (vec_capacity t.returned)) }
    ensures empty { IfOk result (λ t. t.entries.items ≡ []) }
{
    let out = opening.out.len();
    let early = none_returned(alloc, out)?;
    let entries = Vec::with_capacity(alloc, out)?;
    let returned = Vec::with_capacity(alloc, out)?;
    Ok(Tables {
        present,
        entries,
        returned,
        early,
    })
}
