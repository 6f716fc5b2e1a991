//! Single words of a line, and the end of its words.
ghost use Rattle.std.specs.Prelude.{◌≡◌};
ghost use Rattle.std.specs.Str.{bytes_eq};
ghost use Rattle.play_script.specs.Values.{byte_count, flag_of, method_of, number_up_to, short_number};
ghost use Rattle.journal_text.specs.Readings.{activation_of, ended, given, how_of, keyed, kind_of, redirect_of, state_of, version_of};

use jk_io::parse_decimal;
use lb_model::{Activation, How, Kind, MOST_BYTES, MemberState, Method, Redirect};
use play_script::Parts;

/// Nothing, where no word is left.
pub(crate) fn end(words: &mut Parts) -> Option<()>
    ensures { result ≡ ended words.old tt }
{
    match words.next() {
        None => Some(()),
        Some(_) => None,
    }
}

pub(crate) fn is(word: &[u8], text: &[u8]) -> bool
    ensures { result ≡ bytes_eq word.now text.now }
{
    word == text
}

fn number_up_to(most: u64, text: &[u8]) -> Option<u64>
    ensures { result ≡ number_up_to most text.now }
{
    let number = parse_decimal(text)?;
    if number <= most { Some(number) } else { None }
}

pub(crate) fn short_number(text: &[u8]) -> Option<u32>
    ensures { result ≡ short_number text.now }
{
    let number = number_up_to(u64::from(u32::MAX), text)?;
    Some(number as u32)
}

/// The bytes of an exchange.
pub(crate) fn byte_count(word: &[u8]) -> Option<u64>
    ensures { result ≡ byte_count word.now }
{
    number_up_to(MOST_BYTES, word)
}

/// A number that may be left out.
pub(crate) fn given_number(word: &[u8]) -> Option<Option<u32>>
    ensures { result ≡ given short_number word.now }
{
    if is(word, b"-") {
        return Some(None);
    }
    Some(Some(short_number(word)?))
}

pub(crate) fn flag_of(word: &[u8]) -> Option<bool>
    ensures { result ≡ flag_of word.now }
{
    if is(word, b"0") {
        Some(false)
    } else if is(word, b"1") {
        Some(true)
    } else {
        None
    }
}

pub(crate) fn method_of(word: &[u8]) -> Option<Method>
    ensures { result ≡ method_of word.now }
{
    if is(word, b"R") {
        Some(Method::Request)
    } else if is(word, b"S") {
        Some(Method::Session)
    } else if is(word, b"T") {
        Some(Method::Traffic)
    } else if is(word, b"B") {
        Some(Method::Busyness)
    } else {
        None
    }
}

pub(crate) fn activation_of(word: &[u8]) -> Option<Activation>
    ensures { result ≡ activation_of word.now }
{
    if is(word, b"A") {
        Some(Activation::Active)
    } else if is(word, b"D") {
        Some(Activation::Disabled)
    } else if is(word, b"S") {
        Some(Activation::Stopped)
    } else {
        None
    }
}

/// An activation that may be left out.
pub(crate) fn given_activation(word: &[u8]) -> Option<Option<Activation>>
    ensures { result ≡ given activation_of word.now }
{
    if is(word, b"-") {
        return Some(None);
    }
    Some(Some(activation_of(word)?))
}

fn keyed(key: &[u8], word: &[u8]) -> Option<u64>
    ensures { result ≡ keyed key.now word.now }
{
    parse_decimal(word.strip_prefix(key)?)
}

pub(crate) fn state_of(word: &[u8]) -> Option<MemberState>
    ensures { result ≡ state_of word.now }
{
    if is(word, b"ok") {
        Some(MemberState::Ok)
    } else if is(word, b"recover") {
        Some(MemberState::Recover)
    } else if word.starts_with(b"error:") {
        let at = keyed(b"error:", word)?;
        Some(MemberState::Error { at })
    } else {
        let ticket = keyed(b"probe:", word)?;
        Some(MemberState::Probe { ticket })
    }
}

pub(crate) fn kind_of(word: &[u8]) -> Option<Kind>
    ensures { result ≡ kind_of word.now }
{
    if is(word, b"done") {
        Some(Kind::Done)
    } else if is(word, b"failed") {
        Some(Kind::Failed)
    } else if is(word, b"gone") {
        Some(Kind::Gone)
    } else {
        None
    }
}

pub(crate) fn how_of(word: &[u8]) -> Option<How>
    ensures { result ≡ how_of word.now }
{
    if is(word, b"sticky") {
        Some(How::Sticky)
    } else if is(word, b"redirect") {
        Some(How::Redirect)
    } else if is(word, b"balanced") {
        Some(How::Balanced)
    } else {
        None
    }
}

pub(crate) fn redirect_of(word: &[u8]) -> Option<Redirect>
    ensures { result ≡ redirect_of word.now }
{
    if is(word, b"-") {
        Some(Redirect::Keep)
    } else if is(word, b"none") {
        Some(Redirect::None)
    } else {
        Some(Redirect::To(short_number(word)?))
    }
}

pub(crate) fn version_of(word: &[u8]) -> Option<u8>
    ensures { result ≡ version_of word.now }
{
    if is(word, b"1") {
        Some(1)
    } else if is(word, b"2") {
        Some(2)
    } else {
        None
    }
}
