//! The line of a member.
ghost use Rattle.std.specs.Prelude.{◌≡◌, ◌++◌, OnOk};
ghost use Rattle.status_worker.specs.Page.{name_at, names_of, standing_words, weight_words, member_line};

use crate::words::{activation_letter, put_number, put_word, state_word};
use jk_io::{Bytes, NoMemory};
use lb_model::MemberRow;

/// The name of the member at a place, `-` for none.
pub(crate) fn name_at(rows: &[MemberRow], place: Option<u32>) -> &[u8]
    ensures { result.now ≡ name_at (names_of rows.now) place }
{
    match place.and_then(|place| rows.get(place as usize)) {
        Some(row) => row.name.as_slice(),
        None => b"-",
    }
}

fn put_standing(out: &mut Bytes, row: &MemberRow) -> Result<(), NoMemory>
    ensures { OnOk result (out.new ≡ out.old ++ standing_words row.now) }
{
    out.extend(row.name.as_slice())?;
    put_word(out, activation_letter(row.activation))?;
    put_word(out, state_word(row.state))?;
    put_number(out, row.load)?;
    put_number(out, u128::from(row.busy))
}

fn put_weight(out: &mut Bytes, rows: &[MemberRow], row: &MemberRow) -> Result<(), NoMemory>
    ensures { OnOk result (out.new ≡ out.old ++ weight_words (names_of rows.now) row.now) }
{
    put_number(out, u128::from(row.factor))?;
    put_number(out, u128::from(row.distance))?;
    put_word(out, name_at(rows, row.redirect))
}

/// Adds the line of a member of the balancer that has these rows.
pub(crate) fn put_member(
    out: &mut Bytes,
    rows: &[MemberRow],
    row: &MemberRow,
) -> Result<(), NoMemory>
    ensures { OnOk result (out.new ≡ out.old ++ member_line (names_of rows.now) row.now) }
{
    put_standing(out, row)?;
    put_weight(out, rows, row)?;
    out.extend(b"\n")
}
