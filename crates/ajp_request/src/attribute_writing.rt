//! The attributes of a Forward Request, measured and written, with the method among them where it has no code.
ghost use Rattle.std.specs.Prelude.{◌≡◌, ◌+◌, ◌<◌, ◌≤◌, ◌∷◌, ◌++◌, length, OnOk, IfSome, IfNone};
ghost use Rattle.std.specs.List.{AllByRecursion};
ghost use Rattle.ajp_wire.specs.Spelling.{string};
ghost use Rattle.ajp_request.specs.Writing.{attribute_bytes, attributes_bytes, before_stored as stand_before_stored, with_method, method_size, FitsAttribute, FitsMethod};
ghost use Rattle.ajp_wire.specs.declared.writing.TheConstants.{PAYLOAD_LIMIT, STRING_LIMIT};

use crate::attribute::{Attribute, is_stored};
use crate::tables::{KEY_SIZE, NAMED, STORED_METHOD};
use ajp_wire::{MAX_PAYLOAD_BYTES, MAX_STRING_BYTES, put_int, put_text};
use jk_io::{Bytes, NoMemory};

/// A string is spelled in fewer bytes than this.
pub const STRING_ROOM: usize = 65_538;

/// A method is stored in fewer bytes than this.
pub const METHOD_ROOM: usize = 65_539;

/// An attribute is spelled in fewer bytes than this.
const ATTRIBUTE_ROOM: usize = 131_078;

/// How many bytes spell a string, unless it is longer than its length can say.
pub fn text_len(text: &[u8]) -> Option<usize>
    ensures value { IfSome result (λ len. len ≡ length (string text.now)) }
    ensures bound { IfSome result (λ len. len < STRING_ROOM) }
    ensures fits { IfSome result (λ _. length text.now < STRING_LIMIT) }
    ensures none { IfNone result (STRING_LIMIT ≤ length text.now) }
{
    if text.len() > MAX_STRING_BYTES {
        return None;
    }
    Some(text.len() + 3)
}

/// How many bytes the attributes have, unless a field is longer than its length can say, or they are more than fit a payload.
pub fn attributes_len(attributes: &[Attribute]) -> Option<usize>
    ensures value { IfSome result (λ len. len ≡ length (attributes_bytes attributes.now)) }
    ensures bound { IfSome result (λ len. len < PAYLOAD_LIMIT) }
    ensures fits { IfSome result (λ _. AllByRecursion FitsAttribute attributes.now) }
    ensures none { IfNone result (AllByRecursion FitsAttribute attributes.now → length (attributes_bytes attributes.now) < PAYLOAD_LIMIT → ⊥) }
{
    let mut len = 0;
    for attribute in attributes {
        len += attribute_len(attribute)?;
        if len > MAX_PAYLOAD_BYTES {
            return None;
        }
    }
    Some(len)
}

fn attribute_len(attribute: &Attribute) -> Option<usize>
    ensures value { IfSome result (λ len. len ≡ length (attribute_bytes attribute.now)) }
    ensures bound { IfSome result (λ len. len < ATTRIBUTE_ROOM) }
    ensures fits { IfSome result (λ _. FitsAttribute attribute.now) }
    ensures none { IfNone result (FitsAttribute attribute.now → ⊥) }
{
    match attribute {
        Attribute::Plain(_, text) => Some(1 + text_len(text.as_slice())?),
        Attribute::Named(name, value) => Some(
            1 + text_len(name.as_slice())? + text_len(value.as_slice())?,
        ),
        Attribute::KeySize(_) => Some(3),
    }
}

/// How many bytes the method takes among the attributes.
pub fn method_len(code: Option<u8>, method: &[u8]) -> Option<usize>
    ensures value { IfSome result (λ len. len ≡ method_size code method.now) }
    ensures bound { IfSome result (λ len. len < METHOD_ROOM) }
    ensures fits { IfSome result (λ _. FitsMethod code method.now) }
    ensures none { IfNone result (FitsMethod code method.now → ⊥) }
{
    match code {
        Some(_) => Some(0),
        None => Some(1 + text_len(method)?),
    }
}

/// Adds attributes at the end.
pub fn put_attributes(out: &mut Bytes, attributes: &[Attribute]) -> Result<(), NoMemory>
    requires { AllByRecursion FitsAttribute attributes.now }
    ensures { OnOk result (out.new ≡ out.old ++ attributes_bytes attributes.now) }
{
    for attribute in attributes {
        put_attribute(out, attribute)?;
    }
    Ok(())
}

/// Adds attributes at the end, with the method among them, before any other that stores one.
pub fn put_with_method(
    out: &mut Bytes,
    method: &[u8],
    attributes: &[Attribute],
) -> Result<(), NoMemory>
    requires method { length method.now < STRING_LIMIT }
    requires attributes { AllByRecursion FitsAttribute attributes.now }
    ensures { OnOk result (out.new ≡ out.old ++ attributes_bytes (with_method method.now attributes.now)) }
{
    let (before, after) = attributes.split_at(before_stored(attributes));
    put_attributes(out, before)?;
    put_plain(out, STORED_METHOD, method)?;
    put_attributes(out, after)
}

/// How many attributes stand before the first that stores a method.
fn before_stored(attributes: &[Attribute]) -> usize
    ensures value { result ≡ stand_before_stored attributes.now }
    ensures bound { result ≤ length attributes.now }
{
    for (place, attribute) in attributes.iter().enumerate() {
        if is_stored(attribute) {
            return place;
        }
    }
    attributes.len()
}

fn put_attribute(out: &mut Bytes, attribute: &Attribute) -> Result<(), NoMemory>
    requires { FitsAttribute attribute.now }
    ensures { OnOk result (out.new ≡ out.old ++ attribute_bytes attribute.now) }
{
    match attribute {
        Attribute::Plain(code, text) => put_plain(out, *code, text.as_slice()),
        Attribute::Named(name, value) => {
            out.push(NAMED)?;
            put_text(out, name.as_slice())?;
            put_text(out, value.as_slice())
        }
        Attribute::KeySize(size) => {
            out.push(KEY_SIZE)?;
            put_int(out, *size)
        }
    }
}

fn put_plain(out: &mut Bytes, code: u8, text: &[u8]) -> Result<(), NoMemory>
    requires { length text.now < STRING_LIMIT }
    ensures { OnOk result (out.new ≡ out.old ++ (code ∷ string text.now)) }
{
    out.push(code)?;
    put_text(out, text)
}
