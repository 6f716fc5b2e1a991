//! The lines of a balancer.
ghost use Rattle.std.specs.Prelude.{◌≡◌, ◌++◌, OnOk};
ghost use Rattle.std.specs.List.{flat_map};
ghost use Rattle.status_worker.specs.Page.{balancer_line, member_line, names_of, part_lines};

use crate::member_line::put_member;
use crate::page::PagePart;
use crate::words::{method_letter, put_number, put_word, type_word};
use jk_io::{Bytes, NoMemory};
use lb_model::MemberRow;

fn put_balancer(out: &mut Bytes, part: &PagePart) -> Result<(), NoMemory>
    ensures { OnOk result (out.new ≡ out.old ++ balancer_line part.now) }
{
    out.extend(type_word(part.type_))?;
    put_word(out, part.name.as_slice())?;
    put_word(out, method_letter(part.method))?;
    put_number(out, part.view.rows.len() as u128)?;
    put_number(out, u128::from(part.view.next))?;
    out.extend(b"\n")
}

fn put_members(out: &mut Bytes, rows: &[MemberRow]) -> Result<(), NoMemory>
    ensures { OnOk result (out.new ≡ out.old ++ flat_map (member_line (names_of rows.now)) rows.now) }
{
    for row in rows {
        put_member(out, rows, row)?;
    }
    Ok(())
}

/// Adds the lines of a balancer and its members.
pub(crate) fn put_part(out: &mut Bytes, part: &PagePart) -> Result<(), NoMemory>
    ensures { OnOk result (out.new ≡ out.old ++ part_lines part.now) }
{
    put_balancer(out, part)?;
    put_members(out, part.view.rows.as_slice())
}
