//! Single words of a script: counts, flags, methods, activations.
ghost use Rattle.std.specs.Prelude.{◌≡◌};
ghost use Rattle.play_script.specs.Values.{number_up_to, short_number, byte_count, flag_of, method_of, activation_of};

use crate::parts::is;
use jk_io::parse_decimal;
use lb_model::{Activation, MOST_BYTES, Method};

fn number_up_to(most: u64, text: &[u8]) -> Option<u64>
    ensures { result ≡ number_up_to most text.now }
{
    let number = parse_decimal(text)?;
    if number <= most { Some(number) } else { None }
}

pub(crate) fn short_number(text: &[u8]) -> Option<u32>
    ensures { result ≡ short_number text.now }
{
    let number = parse_decimal(text)?;
    if number <= u32::MAX as u64 {
        Some(number as u32)
    } else {
        None
    }
}

/// The bytes of an exchange.
pub(crate) fn byte_count(text: &[u8]) -> Option<u64>
    ensures { result ≡ byte_count text.now }
{
    number_up_to(MOST_BYTES, text)
}

/// `0` or `1`.
pub(crate) fn flag_of(text: &[u8]) -> Option<bool>
    ensures { result ≡ flag_of text.now }
{
    if is(text, b"0") {
        Some(false)
    } else if is(text, b"1") {
        Some(true)
    } else {
        None
    }
}

/// A method by its letter.
pub(crate) fn method_of(text: &[u8]) -> Option<Method>
    ensures { result ≡ method_of text.now }
{
    if is(text, b"R") {
        Some(Method::Request)
    } else if is(text, b"S") {
        Some(Method::Session)
    } else if is(text, b"T") {
        Some(Method::Traffic)
    } else if is(text, b"B") {
        Some(Method::Busyness)
    } else {
        None
    }
}

/// An activation by its first letter, in either case.
pub(crate) fn activation_of(text: &[u8]) -> Option<Activation>
    ensures { result ≡ activation_of text.now }
{
    match text {
        [b'A' | b'a', ..] => Some(Activation::Active),
        [b'D' | b'd', ..] => Some(Activation::Disabled),
        [b'S' | b's', ..] => Some(Activation::Stopped),
        _ => None,
    }
}
