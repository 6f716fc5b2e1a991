//! The attributes of a Forward Request, read up to the FF that ends them.
ghost use Rattle.std.specs.Prelude.{◌≡◌, length, option_map};
ghost use Rattle.ajp_wire.specs.Reading.{GivesReading};
ghost use Rattle.ajp_request.specs.Reading.{named_at, attribute_at, attributes_at, stored_in, tail_at};

use crate::attribute::{Attribute, AttributeList, is_stored};
use crate::tables::{END, KEY_SIZE, NAMED, is_plain};
use ajp_wire::{NotRead, Refusal, RefusalKind, next_byte, next_int, next_text, refused};
use jk_io::Bytes;
use std::alloc::Global;

/// The attributes, and the method where it is among them.
#[tactic(auto, unfolding(crate::specs::Reading::tail_at))]
pub fn next_tail(
    alloc: Global,
    method: Option<Bytes>,
    bytes: &[u8],
) -> Result<((Bytes, AttributeList), &[u8]), NotRead>
    ensures { GivesReading (λ x. (x.0, x.1.now)) result (tail_at method bytes.now) }
{
    let (mut attributes, rest) = next_attributes(alloc, bytes)?;
    if let Some(method) = method {
        return Ok(((method, AttributeList::from_vec(attributes)), rest));
    }
    match take_stored(&mut attributes) {
        Some(method) => Ok(((method, AttributeList::from_vec(attributes)), rest)),
        None => Err(NotRead::Refused(Refusal {
            kind: RefusalKind::BadCode,
            left: rest.len() + 1,
        })),
    }
}

/// The attributes up to FF. Each takes a byte at least.
fn next_attributes(alloc: Global, bytes: &[u8]) -> Result<(Vec<Attribute>, &[u8]), NotRead>
    ensures { GivesReading (λ x. (x.0.items, x.1.now)) result (attributes_at (length bytes.now) bytes.now) }
{
    let mut attributes = Vec::new(alloc);
    let mut rest = bytes;
    for _ in 0..bytes.len() {
        let (code, behind) = next_byte(rest)?;
        if code == END {
            return Ok((attributes, behind));
        }
        let (attribute, after) = next_attribute(alloc, code, rest, behind)?;
        attributes.push(attribute)?;
        rest = after;
    }
    Err(refused(RefusalKind::Short, &[]))
}

/// The attribute of a code that was read. `bytes` begin with the code, and `rest` comes after it.
#[tactic(auto, unfolding(crate::specs::Reading::attribute_at))]
fn next_attribute<'a>(
    alloc: Global,
    code: u8,
    bytes: &[u8],
    rest: &'a [u8],
) -> Result<(Attribute, &'a [u8]), NotRead>
    ensures { GivesReading (λ x. (x.0, x.1.now)) result (attribute_at code bytes.now rest.now) }
{
    if code == NAMED {
        return next_named(alloc, rest);
    }
    if code == KEY_SIZE {
        let (size, rest) = next_int(rest)?;
        return Ok((Attribute::KeySize(size), rest));
    }
    if is_plain(code) {
        let (text, rest) = next_text(alloc, false, rest)?;
        return Ok((Attribute::Plain(code, text), rest));
    }
    Err(refused(RefusalKind::BadCode, bytes))
}

#[tactic(auto, unfolding(crate::specs::Reading::named_at))]
fn next_named(alloc: Global, rest: &[u8]) -> Result<(Attribute, &[u8]), NotRead>
    ensures { GivesReading (λ x. (x.0, x.1.now)) result (named_at rest.now) }
{
    let (name, rest) = next_text(alloc, false, rest)?;
    let (value, rest) = next_text(alloc, true, rest)?;
    Ok((Attribute::Named(name, value), rest))
}

/// Takes out the first attribute that stores a method, and gives the method.
fn take_stored(attributes: &mut Vec<Attribute>) -> Option<Bytes>
    ensures { stored_in attributes.old.items ≡ option_map (λ method. (method, attributes.new.items)) result }
{
    for i in 0..attributes.len() {
        if is_stored(&attributes[i]) {
            return match attributes.remove(i) {
                Attribute::Plain(_, method) => Some(method),
                Attribute::Named(..) | Attribute::KeySize(_) => unreachable!(),
            };
        }
    }
    None
}
