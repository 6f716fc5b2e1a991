//! The values of an update.
ghost use Rattle.std.specs.Prelude.{◌≡◌};
ghost use Rattle.status_worker.specs.Values.{activation_of, short_number, redirect_to, redirect_of, given, has_change, changed_by, change_of};

use crate::command::{NamedChange, NamedRedirect};
use crate::texts::ChangeTexts;
use jk_io::{Bytes, parse_decimal};
use lb_model::Activation;

/// An activation by its first letter, in either case.
fn activation_of(text: &[u8]) -> Option<Activation>
    ensures { result ≡ activation_of text.now }
{
    match text {
        [b'A' | b'a', ..] => Some(Activation::Active),
        [b'D' | b'd', ..] => Some(Activation::Disabled),
        [b'S' | b's', ..] => Some(Activation::Stopped),
        _ => None,
    }
}

/// A number of 32 bits.
fn short_number(text: &[u8]) -> Option<u32>
    ensures { result ≡ short_number text.now }
{
    let number = parse_decimal(text)?;
    if number <= u32::MAX as u64 {
        Some(number as u32)
    } else {
        None
    }
}

fn given_activation(value: &Option<Bytes>) -> Option<Option<Activation>>
    ensures { result ≡ given activation_of value.now }
{
    match value {
        None => Some(None),
        Some(text) => Some(Some(activation_of(text.as_slice())?)),
    }
}

fn given_number(value: &Option<Bytes>) -> Option<Option<u32>>
    ensures { result ≡ given short_number value.now }
{
    match value {
        None => Some(None),
        Some(text) => Some(Some(short_number(text.as_slice())?)),
    }
}

fn redirect_to(name: Bytes) -> NamedRedirect
    ensures { result ≡ redirect_to name }
{
    if name.is_empty() {
        NamedRedirect::None
    } else {
        NamedRedirect::To(name)
    }
}

/// The redirect that is named; the empty name is none.
fn redirect_of(value: Option<Bytes>) -> NamedRedirect
    ensures { result ≡ redirect_of value }
{
    match value {
        None => NamedRedirect::Keep,
        Some(name) => redirect_to(name),
    }
}

fn has_change(texts: &ChangeTexts) -> bool
    ensures { result ≡ has_change texts.now }
{
    texts.activation.is_some()
        || texts.factor.is_some()
        || texts.distance.is_some()
        || texts.redirect.is_some()
}

fn changed_by(texts: ChangeTexts) -> Option<NamedChange>
    ensures { result ≡ changed_by texts }
{
    Some(NamedChange {
        activation: given_activation(&texts.activation)?,
        factor: given_number(&texts.factor)?,
        distance: given_number(&texts.distance)?,
        redirect: redirect_of(texts.redirect),
    })
}

/// What an update changes.
pub(crate) fn change_of(texts: ChangeTexts) -> Option<NamedChange>
    ensures { result ≡ change_of texts }
{
    if has_change(&texts) {
        changed_by(texts)
    } else {
        None
    }
}
