//! How single values stand on the page.
ghost use Rattle.std.specs.Prelude.{◌≡◌, ◌++◌, OnOk, codes, decimal};
ghost use Rattle.status_worker.specs.Words.{
  activation_letter,
  activation_word,
  method_letter,
  state_phrase,
  state_word,
  type_word,
};

use crate::page::BalancerType;
use jk_io::{Bytes, NoMemory, put_decimal};
use lb_model::{Activation, MemberState, Method};

pub(crate) fn type_word(type_: BalancerType) -> &'static [u8]
    ensures { result.now ≡ type_word type_ }
{
    match type_ {
        BalancerType::Lb => b"lb",
        BalancerType::Ajp13 => b"ajp13",
    }
}

pub(crate) fn method_letter(method: Method) -> &'static [u8]
    ensures { result.now ≡ method_letter method }
{
    match method {
        Method::Request => b"R",
        Method::Session => b"S",
        Method::Traffic => b"T",
        Method::Busyness => b"B",
    }
}

pub(crate) fn activation_letter(activation: Activation) -> &'static [u8]
    ensures { result.now ≡ activation_letter activation }
{
    match activation {
        Activation::Active => b"A",
        Activation::Disabled => b"D",
        Activation::Stopped => b"S",
    }
}

pub(crate) fn activation_word(activation: Activation) -> &'static [u8]
    ensures { result.now ≡ activation_word activation }
{
    match activation {
        Activation::Active => b"active",
        Activation::Disabled => b"disabled",
        Activation::Stopped => b"stopped",
    }
}

pub(crate) fn state_word(state: MemberState) -> &'static [u8]
    ensures { result.now ≡ state_word state }
{
    match state {
        MemberState::Ok => b"ok",
        MemberState::Error { at: _ } => b"error",
        MemberState::Recover => b"recover",
        MemberState::Probe { ticket: _ } => b"probe",
    }
}

/// A state in words.
pub(crate) fn state_phrase(state: MemberState) -> &'static [u8]
    ensures { result.now ≡ state_phrase state }
{
    match state {
        MemberState::Ok => b"ok",
        MemberState::Error { at: _ } => b"in error",
        MemberState::Recover => b"to be tried again",
        MemberState::Probe { ticket: _ } => b"on trial",
    }
}

/// Adds a space and a text.
pub(crate) fn put_word(out: &mut Bytes, word: &[u8]) -> Result<(), NoMemory>
    ensures { OnOk result (out.new ≡ out.old ++ codes " " ++ word.now) }
{
    out.extend(b" ")?;
    out.extend(word)
}

/// Adds a space and a number.
pub(crate) fn put_number(out: &mut Bytes, number: u128) -> Result<(), NoMemory>
    ensures { OnOk result (out.new ≡ out.old ++ codes " " ++ decimal number) }
{
    out.extend(b" ")?;
    put_decimal(out, number)
}
