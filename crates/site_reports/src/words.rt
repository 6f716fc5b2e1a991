//! How single values are printed.
ghost use Rattle.std.specs.Prelude.{◌≡◌, ◌++◌, OnOk, decimal};
ghost use Rattle.site_reports.specs.Words.{activation_words, method_letter, flag};

use jk_io::{Bytes, NoMemory, put_decimal};
use lb_model::{Activation, Method};

pub(crate) fn method_letter(method: Method) -> &'static [u8]
    ensures { result.now ≡ method_letter method }
{
    match method {
        Method::Request => b"R",
        Method::Session => b"S",
        Method::Traffic => b"T",
        Method::Busyness => b"B",
    }
}

pub(crate) fn activation_words(activation: Activation) -> &'static [u8]
    ensures { result.now ≡ activation_words activation }
{
    match activation {
        Activation::Active => b" activation A",
        Activation::Disabled => b" activation D",
        Activation::Stopped => b" activation S",
    }
}

pub(crate) fn flag(truth: bool) -> &'static [u8]
    ensures { result.now ≡ flag truth }
{
    if truth { b"1" } else { b"0" }
}

/// Adds a word and a text.
pub(crate) fn put_text(out: &mut Bytes, word: &[u8], text: &[u8]) -> Result<(), NoMemory>
    ensures { OnOk result (out.new ≡ out.old ++ word.now ++ text.now) }
{
    out.extend(word)?;
    out.extend(text)
}

/// Adds a word and a number.
pub(crate) fn put_number(out: &mut Bytes, word: &[u8], number: u64) -> Result<(), NoMemory>
    ensures { OnOk result (out.new ≡ out.old ++ word.now ++ decimal number) }
{
    out.extend(word)?;
    put_decimal(out, u128::from(number))
}
