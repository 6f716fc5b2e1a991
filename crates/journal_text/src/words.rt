//! Words that are added to a line, each after a space.
ghost use Rattle.std.specs.Prelude.{◌≡◌, ◌∷◌, ◌++◌, OnOk, decimal};
ghost use Rattle.journal_text.specs.Words.{activation_change, activation_letter, flag, how_word, kind_word, method_letter, optional, redirect_change, state_word};

use jk_io::{Bytes, NoMemory, put_decimal};
use lb_model::{Activation, How, Kind, MemberState, Method, Redirect};

/// Adds a word after a space.
pub(crate) fn put_word(out: &mut Bytes, word: &[u8]) -> Result<(), NoMemory>
    ensures { OnOk result (out.new ≡ out.old ++ (32 ∷ word.now)) }
{
    out.push(b' ')?;
    out.extend(word)
}

pub(crate) fn put_number(out: &mut Bytes, number: u128) -> Result<(), NoMemory>
    ensures { OnOk result (out.new ≡ out.old ++ (32 ∷ decimal number)) }
{
    out.push(b' ')?;
    put_decimal(out, number)
}

pub(crate) fn put_long(out: &mut Bytes, number: u64) -> Result<(), NoMemory>
    ensures { OnOk result (out.new ≡ out.old ++ (32 ∷ decimal number)) }
{
    put_number(out, u128::from(number))
}

pub(crate) fn put_short(out: &mut Bytes, number: u32) -> Result<(), NoMemory>
    ensures { OnOk result (out.new ≡ out.old ++ (32 ∷ decimal number)) }
{
    put_number(out, u128::from(number))
}

pub(crate) fn put_optional(out: &mut Bytes, number: Option<u32>) -> Result<(), NoMemory>
    ensures { OnOk result (out.new ≡ out.old ++ (32 ∷ optional number)) }
{
    match number {
        None => put_word(out, b"-"),
        Some(number) => put_short(out, number),
    }
}

pub(crate) fn flag(truth: bool) -> &'static [u8]
    ensures { result.now ≡ flag truth }
{
    if truth { b"1" } else { b"0" }
}

pub(crate) fn method_letter(method: Method) -> &'static [u8]
    ensures { result.now ≡ method_letter method }
{
    match method {
        Method::Request => b"R",
        Method::Session => b"S",
        Method::Traffic => b"T",
        Method::Busyness => b"B",
    }
}

pub(crate) fn activation_letter(activation: Activation) -> &'static [u8]
    ensures { result.now ≡ activation_letter activation }
{
    match activation {
        Activation::Active => b"A",
        Activation::Disabled => b"D",
        Activation::Stopped => b"S",
    }
}

pub(crate) fn kind_word(kind: Kind) -> &'static [u8]
    ensures { result.now ≡ kind_word kind }
{
    match kind {
        Kind::Done => b"done",
        Kind::Failed => b"failed",
        Kind::Gone => b"gone",
    }
}

pub(crate) fn how_word(how: How) -> &'static [u8]
    ensures { result.now ≡ how_word how }
{
    match how {
        How::Sticky => b"sticky",
        How::Redirect => b"redirect",
        How::Balanced => b"balanced",
    }
}

pub(crate) fn activation_change(activation: Option<Activation>) -> &'static [u8]
    ensures { result.now ≡ activation_change activation }
{
    match activation {
        None => b"-",
        Some(activation) => activation_letter(activation),
    }
}

/// Adds what an update does with a redirect.
pub(crate) fn put_redirect(out: &mut Bytes, redirect: Redirect) -> Result<(), NoMemory>
    ensures { OnOk result (out.new ≡ out.old ++ (32 ∷ redirect_change redirect)) }
{
    match redirect {
        Redirect::Keep => put_word(out, b"-"),
        Redirect::None => put_word(out, b"none"),
        Redirect::To(member) => put_short(out, member),
    }
}

pub(crate) fn put_state(out: &mut Bytes, state: MemberState) -> Result<(), NoMemory>
    ensures { OnOk result (out.new ≡ out.old ++ (32 ∷ state_word state)) }
{
    match state {
        MemberState::Ok => put_word(out, b"ok"),
        MemberState::Error { at } => {
            put_word(out, b"error:")?;
            put_decimal(out, u128::from(at))
        }
        MemberState::Recover => put_word(out, b"recover"),
        MemberState::Probe { ticket } => {
            put_word(out, b"probe:")?;
            put_decimal(out, u128::from(ticket))
        }
    }
}
