//! The words of a command by their places, and its options.
ghost use Rattle.std.specs.Prelude.{◌≡◌, [], ◌∷◌, MatchOption, option_map};
ghost use Rattle.std.specs.Option.{option_copied};
ghost use Rattle.jk_cli.specs.Parts.{end, flag_in, option_in, parts_of, places_in};

use crate::part::{Part, Parts, is};
use jk_io::Bytes;
use std::marker::Model;

/// The words that are read by their place, from the first on. Contracts see the list of those that are left.
#[derive(Drop)]
pub(crate) struct Places<'a> {
    parts: Parts<'a>,
}

impl<'a> Model for Places<'a> {
    ghost use Rattle.std.specs.Prelude.{List, ℕ};
    ghost use Rattle.jk_cli.specs.Parts.{places_in};

    ghost Value = { List (List ℕ) };

    ghost view = { λ p. places_in p.parts };
}

impl<'a> Places<'a> {
    /// All words of these that are read by their place.
    pub fn of(words: &'a [Bytes]) -> Places<'a>
        ensures { result ≡ places_in (parts_of words.now) }
    {
        Places {
            parts: Parts::of(words),
        }
    }

    /// Takes the first one that is left.
    pub fn next(&mut self) -> Option<&'a [u8]>
        ensures { MatchOption result ((self.old ≡ []) × (self.new ≡ [])) (λ word. self.old ≡ word.now ∷ self.new) }
    {
        while let Some(part) = self.parts.next() {
            if let Part::Place(word) = part {
                return Some(word);
            }
        }
        None
    }

    /// Nothing, where none is left.
    pub fn end(&mut self) -> Option<()>
        ensures { result ≡ end self.old }
    {
        match self.next() {
            None => Some(()),
            Some(_) => None,
        }
    }
}

/// The option of this name, where it stands at most once. `None`: it stands twice.
pub(crate) fn option_in<'a>(words: &'a [Bytes], name: &[u8]) -> Option<Option<&'a [u8]>>
    ensures { option_map (λ value. option_copied value) result ≡ option_in name.now (parts_of words.now) }
{
    let mut parts = Parts::of(words);
    let mut found = None;
    while let Some(part) = parts.next() {
        if let Part::Given(key, value) = part
            && is(key, name)
        {
            if found.is_some() {
                return None;
            }
            found = Some(value);
        }
    }
    Some(found)
}

/// Whether the flag `-v` stands there. `None`: it stands twice.
pub(crate) fn flag_in(words: &[Bytes]) -> Option<bool>
    ensures { result ≡ flag_in (parts_of words.now) }
{
    let mut parts = Parts::of(words);
    let mut found = false;
    while let Some(part) = parts.next() {
        if let Part::Verbose = part {
            if found {
                return None;
            }
            found = true;
        }
    }
    Some(found)
}
