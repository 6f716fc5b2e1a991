//! Fields KEY=VALUE of a line.
ghost use Rattle.std.specs.Prelude.{◌≡◌, option_map, codes};
ghost use Rattle.std.specs.Option.{option_copied};
ghost use Rattle.play_script.specs.Values.{value_of, past};
ghost use Rattle.play_script.specs.Fields.{activation_in, number_in, name_in, redirect_of, redirect_in};

use crate::names::{NameList, index_of, is_name};
use crate::parts::{Parts, is};
use crate::values::{activation_of, short_number};
use lb_model::{Activation, Redirect};

/// A field `activation=X`.
pub(crate) fn activation_in(words: &mut Parts) -> Option<Option<Activation>>
    ensures value { result ≡ activation_in words.old }
    ensures past { words.new ≡ past (codes "activation=") words.old }
{
    match words.take_value(b"activation=") {
        None => Some(None),
        Some(text) => Some(Some(activation_of(text)?)),
    }
}

/// A field with a number of 32 bits.
pub(crate) fn number_in(words: &mut Parts, key: &[u8]) -> Option<Option<u32>>
    ensures value { result ≡ number_in key.now words.old }
    ensures past { words.new ≡ past key.now words.old }
{
    match words.take_value(key) {
        None => Some(None),
        Some(text) => Some(Some(short_number(text)?)),
    }
}

fn redirect_of(names: &NameList, text: &[u8]) -> Option<Redirect>
    ensures { result ≡ redirect_of names.now text.now }
{
    if is(text, b"-") {
        return Some(Redirect::None);
    }
    let member = index_of(names, text)?;
    Some(Redirect::To(member))
}

/// A field `redirect=NAME` or `redirect=-` of an update.
pub(crate) fn redirect_in(names: &NameList, words: &mut Parts) -> Option<Redirect>
    ensures value { result ≡ redirect_in names.now words.old }
    ensures past { words.new ≡ past (codes "redirect=") words.old }
{
    match words.take_value(b"redirect=") {
        None => Some(Redirect::Keep),
        Some(text) => redirect_of(names, text),
    }
}

/// A field `redirect=NAME` of a member, which a later line may name.
pub(crate) fn name_in<'a>(words: &mut Parts<'a>) -> Option<Option<&'a [u8]>>
    ensures value { option_map (λ name. option_copied name) result ≡ name_in words.old }
    ensures past { words.new ≡ past (codes "redirect=") words.old }
{
    match words.take_value(b"redirect=") {
        None => Some(None),
        Some(text) => {
            if is_name(text) {
                Some(Some(text))
            } else {
                None
            }
        }
    }
}
