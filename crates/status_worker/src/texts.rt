//! The values of the known names.
ghost use Rattle.std.specs.Prelude.{◌≡◌, IfOk, count_by};
ghost use Rattle.std.specs.Option.{option_map, option_copied};
ghost use Rattle.std.specs.List.{find};
ghost use Rattle.status_worker.specs.Names.{has_name, is_lone, are_lone, value_of, change_texts_of, texts_of};

use crate::field::Field;
use crate::name::{NAMES, Name};
use jk_io::{Bytes, NoMemory};

/// The values that an update changes, each where a field has it.
#[derive(Drop)]
pub(crate) struct ChangeTexts {
    pub activation: Option<Bytes>,
    pub factor: Option<Bytes>,
    pub distance: Option<Bytes>,
    pub redirect: Option<Bytes>,
}

/// The values of the known names, each where a field has it.
#[derive(Drop)]
pub(crate) struct Texts {
    pub command: Option<Bytes>,
    pub worker: Option<Bytes>,
    pub member: Option<Bytes>,
    pub change: ChangeTexts,
}

fn has_name(field: &Field, name: Name) -> bool
    ensures { result ≡ has_name name field.now }
{
    field.name.as_slice() == name.text()
}

fn is_lone(fields: &[Field], name: Name) -> bool
    ensures { result ≡ is_lone fields.now name }
{
    fields.iter().filter(|field| has_name(field, name)).count() <= 1
}

/// Whether no known name stands twice.
pub(crate) fn are_lone(fields: &[Field]) -> bool
    ensures { result ≡ are_lone fields.now }
{
    NAMES.iter().all(|name| is_lone(fields, *name))
}

fn find_field(fields: &[Field], name: Name) -> Option<&Field>
    ensures { option_copied result ≡ find (has_name name) fields.now }
{
    fields.iter().find(|field| has_name(field, name))
}

/// A copy of the value of the first field of that name.
fn value_of(fields: &[Field], name: Name) -> Result<Option<Bytes>, NoMemory>
    ensures { IfOk result (λ value. value ≡ value_of fields.now name) }
{
    match find_field(fields, name) {
        None => Ok(None),
        Some(field) => Ok(Some(field.value.copy()?)),
    }
}

fn change_texts_of(fields: &[Field]) -> Result<ChangeTexts, NoMemory>
    ensures { IfOk result (λ texts. texts ≡ change_texts_of fields.now) }
{
    Ok(ChangeTexts {
        activation: value_of(fields, Name::Activation)?,
        factor: value_of(fields, Name::Factor)?,
        distance: value_of(fields, Name::Distance)?,
        redirect: value_of(fields, Name::Redirect)?,
    })
}

/// The values of the known names.
pub(crate) fn texts_of(fields: &[Field]) -> Result<Texts, NoMemory>
    ensures { IfOk result (λ texts. texts ≡ texts_of fields.now) }
{
    Ok(Texts {
        command: value_of(fields, Name::Command)?,
        worker: value_of(fields, Name::Worker)?,
        member: value_of(fields, Name::Member)?,
        change: change_texts_of(fields)?,
    })
}
