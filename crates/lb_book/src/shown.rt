//! The rows that a view shows.

ghost use Rattle.std.specs.Prelude.{◌≡◌, ℕ, List, length, IfOk};
ghost use Rattle.lb_book.specs.Shown.{AreShown, shown_row};

use jk_io::NoMemory;
use lb_model::{MemberConfig, MemberRow};
use lb_rules::Standing;
use std::alloc::Global;

fn shown_row(member: &MemberConfig, row: &Standing) -> Result<MemberRow, NoMemory>
    ensures { IfOk result (λ shown. shown ≡ shown_row member.now row.now) }
{
    Ok(MemberRow {
        name: member.name.copy()?,
        state: row.state,
        load: row.load,
        busy: row.busy,
        activation: row.activation,
        factor: row.factor,
        distance: row.distance,
        redirect: row.redirect,
    })
}

/// The rows of a view, under the members' names.
pub(crate) fn shown_rows(
    alloc: Global,
    members: &[MemberConfig],
    rows: &[Standing],
) -> Result<Vec<MemberRow>, NoMemory>
    requires { length rows.now ≡ length members.now }
    ensures { IfOk result (λ shown. AreShown members.now rows.now (length members.now) shown.items) }
{
    let mut shown = Vec::with_capacity(alloc, rows.len())?;
    for i in 0..rows.len() {
        shown.push(shown_row(&members[i], &rows[i])?)?;
    }
    Ok(shown)
}
