//! A query as fields.
ghost use Rattle.std.specs.Prelude.{◌≡◌, ◌<◌, ◌==◌, [], ◌∷◌, None, Some, IfSome, IfOk, OnOk, IsErrOf, length, position};
ghost use Rattle.std.specs.Option.{option_map};
ghost use Rattle.status_worker.specs.Fields.{behind, cut_at, field_of, fields_in, fields_of};

use crate::error::StatusError;
use crate::escapes::{decoded, has_good_escapes};
use crate::field::{Field, FieldList};
use jk_io::ListOf;
use std::alloc::Global;

/// Where the byte stands first.
fn find(text: &[u8], byte: u8) -> Option<usize>
    ensures { result ≡ position (λ b. b == byte) text.now }
{
    text.iter().position(|b| *b == byte)
}

/// What stands before the first such byte, and what follows it.
fn cut_at(text: &[u8], byte: u8) -> Option<(&[u8], &[u8])>
    ensures cut { option_map (λ parts. (parts.0.now, parts.1.now)) result ≡ cut_at byte text.now }
    ensures shorter { IfSome result (λ parts. length parts.1.now < length text.now) }
{
    match find(text, byte) {
        None => None,
        Some(at) => Some((&text[..at], &text[at + 1..])),
    }
}

/// The field that a part writes.
fn read_field(alloc: Global, part: &[u8]) -> Result<Field, StatusError>
    ensures ok { IfOk result (λ field. field_of part.now ≡ Some field) }
    ensures bad { IsErrOf result StatusError.BadQuery → field_of part.now ≡ None }
{
    if !has_good_escapes(part) {
        return Err(StatusError::BadQuery);
    }
    let Some((name, value)) = cut_at(part, b'=') else {
        return Err(StatusError::BadQuery);
    };
    Ok(Field {
        name: decoded(alloc, name)?,
        value: decoded(alloc, value)?,
    })
}

/// Adds the field of a part; an empty part has none.
fn push_part(alloc: Global, fields: &mut FieldList, part: &[u8]) -> Result<(), StatusError>
    ensures ok { OnOk result (behind fields.old (fields_in (part.now ∷ [])) ≡ Some fields.new) }
    ensures bad { IsErrOf result StatusError.BadQuery → fields_in (part.now ∷ []) ≡ None }
{
    if !part.is_empty() {
        fields.push(read_field(alloc, part)?)?;
    }
    Ok(())
}

/// The fields of a query, in order.
pub(crate) fn read_fields(alloc: Global, query: &[u8]) -> Result<FieldList, StatusError>
    ensures ok { IfOk result (λ fields. fields_of query.now ≡ Some fields) }
    ensures bad { IsErrOf result StatusError.BadQuery → fields_of query.now ≡ None }
{
    let mut fields = ListOf::new(alloc);
    let mut rest = query;
    'parts: loop {
        match cut_at(rest, b'&') {
            Some((part, others)) => {
                push_part(alloc, &mut fields, part)?;
                rest = others;
            }
            None => {
                push_part(alloc, &mut fields, rest)?;
                return Ok(fields);
            }
        }
    }
}
