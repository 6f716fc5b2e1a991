//! Equal values of what a Book hands out and keeps.

ghost use Rattle.std.specs.Prelude.{◌≡◌, IfOk};

use jk_io::NoMemory;
use lb_model::{MemberRow, Opening, RowList};
use std::alloc::Global;

fn copy_rows(alloc: Global, rows: &[MemberRow]) -> Result<Vec<MemberRow>, NoMemory>
    ensures { IfOk result (λ copies. copies.items ≡ rows.now) }
{
    let mut copies = Vec::with_capacity(alloc, rows.len())?;
    for row in rows {
        copies.push(row.copy()?)?;
    }
    Ok(copies)
}

/// An equal opening.
pub(crate) fn copy_opening(opening: &Opening) -> Result<Opening, NoMemory>
    ensures { IfOk result (λ copy. copy ≡ opening.now) }
{
    let rows = copy_rows(opening.rows.allocator(), opening.rows.as_slice())?;
    Ok(Opening {
        config: opening.config.copy()?,
        rows: RowList::from_vec(rows),
        out: opening.out.copy()?,
        next: opening.next,
        at: opening.at,
        maintained: opening.maintained,
        chosen: opening.chosen,
    })
}
