//! The page as HTML: a table for each balancer, with a form for each member where changes may be made.
ghost use Rattle.std.specs.Prelude.{◌≡◌, ◌++◌, OnOk};
ghost use Rattle.std.specs.List.{flat_map, zip};
ghost use Rattle.status_worker.specs.Page.{names_of};
ghost use Rattle.status_worker.specs.Table.{
  address_cell,
  change_column,
  change_cell,
  html_page,
  member_cells,
  number_cell,
  standing_cells,
  table_about,
  table_head,
  table_part,
  table_row,
  table_rows,
  table_title,
  text_cell,
  weight_cells,
};

use crate::form::put_form;
use crate::marks::put_html;
use crate::member_line::name_at;
use crate::page::{Address, PagePart};
use crate::words::{activation_word, method_letter, state_phrase, type_word};
use jk_io::{Bytes, NoMemory, put_decimal};
use lb_model::MemberRow;

fn put_text_cell(out: &mut Bytes, text: &[u8]) -> Result<(), NoMemory>
    ensures { OnOk result (out.new ≡ out.old ++ text_cell text.now) }
{
    out.extend(b"<td>")?;
    put_html(out, text)?;
    out.extend(b"</td>")
}

fn put_number_cell(out: &mut Bytes, number: u128) -> Result<(), NoMemory>
    ensures { OnOk result (out.new ≡ out.old ++ number_cell number) }
{
    out.extend(b"<td>")?;
    put_decimal(out, number)?;
    out.extend(b"</td>")
}

fn put_address_cell(out: &mut Bytes, address: &Address) -> Result<(), NoMemory>
    ensures { OnOk result (out.new ≡ out.old ++ address_cell address.now) }
{
    out.extend(b"<td>")?;
    put_html(out, address.host.as_slice())?;
    out.extend(b":")?;
    put_decimal(out, u128::from(address.port))?;
    out.extend(b"</td>")
}

fn put_standing(out: &mut Bytes, row: &MemberRow) -> Result<(), NoMemory>
    ensures { OnOk result (out.new ≡ out.old ++ standing_cells row.now) }
{
    put_text_cell(out, activation_word(row.activation))?;
    put_text_cell(out, state_phrase(row.state))?;
    put_number_cell(out, row.load)?;
    put_number_cell(out, u128::from(row.busy))
}

fn put_weight(out: &mut Bytes, rows: &[MemberRow], row: &MemberRow) -> Result<(), NoMemory>
    ensures { OnOk result (out.new ≡ out.old ++ weight_cells (names_of rows.now) row.now) }
{
    put_number_cell(out, u128::from(row.factor))?;
    put_number_cell(out, u128::from(row.distance))?;
    put_text_cell(out, name_at(rows, row.redirect))
}

fn put_cells(
    out: &mut Bytes,
    rows: &[MemberRow],
    row: &MemberRow,
    address: &Address,
) -> Result<(), NoMemory>
    ensures { OnOk result (out.new ≡ out.old ++ member_cells (names_of rows.now) row.now address.now) }
{
    put_text_cell(out, row.name.as_slice())?;
    put_address_cell(out, address)?;
    put_standing(out, row)?;
    put_weight(out, rows, row)
}

/// Adds the cell with the form that changes a member, where changes may be made.
fn put_change(
    out: &mut Bytes,
    may_change: bool,
    part: &PagePart,
    row: &MemberRow,
) -> Result<(), NoMemory>
    ensures { OnOk result (out.new ≡ out.old ++ change_cell may_change part.now row.now) }
{
    if !may_change {
        return Ok(());
    }
    out.extend(b"<td>")?;
    put_form(out, part, row)?;
    out.extend(b"</td>")
}

fn put_row(
    out: &mut Bytes,
    may_change: bool,
    part: &PagePart,
    row: &MemberRow,
    address: &Address,
) -> Result<(), NoMemory>
    ensures { OnOk result (out.new ≡ out.old ++ table_row may_change part.now (row.now, address.now)) }
{
    out.extend(b"<tr>")?;
    put_cells(out, part.view.rows.as_slice(), row, address)?;
    put_change(out, may_change, part, row)?;
    out.extend(b"</tr>\n")
}

fn put_rows(out: &mut Bytes, may_change: bool, part: &PagePart) -> Result<(), NoMemory>
    ensures { OnOk result (out.new ≡ out.old ++ table_rows may_change part.now) }
{
    let rows = part.view.rows.as_slice();
    for (row, address) in rows.iter().zip(part.addresses.as_slice()) {
        put_row(out, may_change, part, row, address)?;
    }
    Ok(())
}

fn change_column(may_change: bool) -> &'static [u8]
    ensures { result.now ≡ change_column may_change }
{
    if may_change { b"<th>Change</th>" } else { b"" }
}

fn put_title(out: &mut Bytes, part: &PagePart) -> Result<(), NoMemory>
    ensures { OnOk result (out.new ≡ out.old ++ table_title part.now) }
{
    out.extend(b"<h2>")?;
    out.extend(type_word(part.type_))?;
    out.extend(b" ")?;
    put_html(out, part.name.as_slice())?;
    out.extend(b"</h2>\n")
}

fn put_about(out: &mut Bytes, part: &PagePart) -> Result<(), NoMemory>
    ensures { OnOk result (out.new ≡ out.old ++ table_about part.now) }
{
    out.extend(b"<p>Method ")?;
    out.extend(method_letter(part.method))?;
    out.extend(b", next journal entry ")?;
    put_decimal(out, u128::from(part.view.next))?;
    out.extend(b".</p>\n")
}

fn put_table_head(out: &mut Bytes, may_change: bool) -> Result<(), NoMemory>
    ensures { OnOk result (out.new ≡ out.old ++ table_head may_change) }
{
    out.extend(b"<table>\n<tr>")?;
    out.extend(
        b"<th>Member</th><th>Address</th><th>Activation</th><th>State</th><th>Load</th><th>Busy</th><th>Factor</th><th>Distance</th><th>Redirect</th>",
    )?;
    out.extend(change_column(may_change))?;
    out.extend(b"</tr>\n")
}

fn put_table(out: &mut Bytes, may_change: bool, part: &PagePart) -> Result<(), NoMemory>
    ensures { OnOk result (out.new ≡ out.old ++ table_part may_change part.now) }
{
    put_title(out, part)?;
    put_about(out, part)?;
    put_table_head(out, may_change)?;
    put_rows(out, may_change, part)?;
    out.extend(b"</table>\n")
}

fn put_tables(out: &mut Bytes, may_change: bool, parts: &[PagePart]) -> Result<(), NoMemory>
    ensures { OnOk result (out.new ≡ out.old ++ flat_map (table_part may_change) parts.now) }
{
    for part in parts {
        put_table(out, may_change, part)?;
    }
    Ok(())
}

/// Adds the page as HTML.
pub(crate) fn put_html_page(
    out: &mut Bytes,
    may_change: bool,
    parts: &[PagePart],
) -> Result<(), NoMemory>
    ensures { OnOk result (out.new ≡ out.old ++ html_page may_change parts.now) }
{
    out.extend(
        b"<!DOCTYPE html>\n<html lang='en'>\n<head>\n<meta charset='utf-8'>\n<title>jk status</title>\n",
    )?;
    out.extend(
        b"<style>table { border-collapse: collapse } th, td { border: 1px solid; padding: 0.2em 0.6em }</style>\n",
    )?;
    out.extend(
        b"</head>\n<body>\n<h1>jk status</h1>\n<p><a href='?mime=html'>All balancers</a></p>\n",
    )?;
    put_tables(out, may_change, parts)?;
    out.extend(b"</body>\n</html>\n")
}
