//! The form that changes a member: its fields have the member's values, and a button each sends an update, a reset or a
//! recover.
ghost use Rattle.std.specs.Prelude.{◌≡◌, ◌++◌, OnOk};
ghost use Rattle.std.specs.Str.{bytes_eq};
ghost use Rattle.status_worker.specs.Page.{names_of};
ghost use Rattle.status_worker.specs.Form.{
  activation_field,
  activation_option,
  hidden_field,
  member_form,
  number_field,
  redirect_field,
  redirect_name,
  selected,
  target_fields,
  value_fields,
};
ghost use Rattle.status_worker.specs.Words.{activation_letter};

use crate::marks::put_html;
use crate::page::PagePart;
use crate::words::{activation_letter, activation_word};
use jk_io::{Bytes, NoMemory, put_decimal};
use lb_model::{Activation, MemberRow};

fn put_hidden(out: &mut Bytes, name: &[u8], value: &[u8]) -> Result<(), NoMemory>
    ensures { OnOk result (out.new ≡ out.old ++ hidden_field name.now value.now) }
{
    out.extend(b"<input type='hidden' name='")?;
    out.extend(name)?;
    out.extend(b"' value='")?;
    put_html(out, value)?;
    out.extend(b"'>")
}

/// Adds the fields that name the page's form, the balancer and the member.
fn put_target(out: &mut Bytes, part: &PagePart, row: &MemberRow) -> Result<(), NoMemory>
    ensures { OnOk result (out.new ≡ out.old ++ target_fields part.now row.now) }
{
    put_hidden(out, b"mime", b"html")?;
    put_hidden(out, b"w", part.name.as_slice())?;
    put_hidden(out, b"sw", row.name.as_slice())
}

fn selected(is_it: bool) -> &'static [u8]
    ensures { result.now ≡ selected is_it }
{
    if is_it { b"' selected>" } else { b"'>" }
}

/// The end of an option's value, by whether the activation is the member's.
fn selected_for(row: &MemberRow, to: Activation) -> &'static [u8]
    ensures { result.now ≡ selected (bytes_eq (activation_letter row.now.activation) (activation_letter to)) }
{
    selected(activation_letter(row.activation) == activation_letter(to))
}

/// Adds an activation to choose, which is the chosen one where it is the member's.
fn put_option(out: &mut Bytes, row: &MemberRow, to: Activation) -> Result<(), NoMemory>
    ensures { OnOk result (out.new ≡ out.old ++ activation_option row.now to) }
{
    out.extend(b"<option value='")?;
    out.extend(activation_letter(to))?;
    out.extend(selected_for(row, to))?;
    out.extend(activation_word(to))?;
    out.extend(b"</option>")
}

fn put_activation(out: &mut Bytes, row: &MemberRow) -> Result<(), NoMemory>
    ensures { OnOk result (out.new ≡ out.old ++ activation_field row.now) }
{
    out.extend(b"<label>Activation <select name='vwa'>")?;
    put_option(out, row, Activation::Active)?;
    put_option(out, row, Activation::Disabled)?;
    put_option(out, row, Activation::Stopped)?;
    out.extend(b"</select></label> ")
}

fn put_number_field(out: &mut Bytes, label: &[u8], name: &[u8], number: u32) -> Result<(), NoMemory>
    ensures { OnOk result (out.new ≡ out.old ++ number_field label.now name.now number) }
{
    out.extend(b"<label>")?;
    out.extend(label)?;
    out.extend(b" <input size='5' name='")?;
    out.extend(name)?;
    out.extend(b"' value='")?;
    put_decimal(out, u128::from(number))?;
    out.extend(b"'></label> ")
}

/// The name of the member that takes this one's sessions, empty for none.
fn redirect_name(rows: &[MemberRow], place: Option<u32>) -> &[u8]
    ensures { result.now ≡ redirect_name (names_of rows.now) place }
{
    match place.and_then(|place| rows.get(place as usize)) {
        Some(row) => row.name.as_slice(),
        None => b"",
    }
}

fn put_redirect(out: &mut Bytes, rows: &[MemberRow], row: &MemberRow) -> Result<(), NoMemory>
    ensures { OnOk result (out.new ≡ out.old ++ redirect_field (names_of rows.now) row.now) }
{
    out.extend(b"<label>Redirect <input size='10' name='vwr' value='")?;
    put_html(out, redirect_name(rows, row.redirect))?;
    out.extend(b"'></label> ")
}

fn put_values(out: &mut Bytes, rows: &[MemberRow], row: &MemberRow) -> Result<(), NoMemory>
    ensures { OnOk result (out.new ≡ out.old ++ value_fields (names_of rows.now) row.now) }
{
    put_activation(out, row)?;
    put_number_field(out, b"Factor", b"vwf", row.factor)?;
    put_number_field(out, b"Distance", b"vwd", row.distance)?;
    put_redirect(out, rows, row)
}

/// Adds the form that changes a member of this balancer.
pub(crate) fn put_form(out: &mut Bytes, part: &PagePart, row: &MemberRow) -> Result<(), NoMemory>
    ensures { OnOk result (out.new ≡ out.old ++ member_form part.now row.now) }
{
    out.extend(b"<form>")?;
    put_target(out, part, row)?;
    put_values(out, part.view.rows.as_slice(), row)?;
    out.extend(
        b"<button name='cmd' value='update'>Change</button> <button name='cmd' value='reset'>Reset</button> <button name='cmd' value='recover'>Recover</button>",
    )?;
    out.extend(b"</form>")
}
