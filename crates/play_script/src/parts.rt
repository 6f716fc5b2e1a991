//! A text taken apart at a byte, such as a line at its spaces.
ghost use Rattle.std.specs.Prelude.{◌≡◌, ◌+◌, ◌≤◌, [], ◌∷◌, ◌==◌, MatchOption, length, position, option_copied};
ghost use Rattle.std.specs.Str.{bytes_eq};
ghost use Rattle.play_script.specs.Parts.{parts_of, parts_left};
ghost use Rattle.play_script.specs.Values.{end, only, value_of, past};

use std::marker::Model;

/// The parts of a text round a byte, from the first on; contracts see the list of those that are left.
#[derive(Drop)]
pub struct Parts<'a> {
    byte: u8,
    rest: Option<&'a [u8]>,
}

impl<'a> Model for Parts<'a> {
    ghost use Rattle.std.specs.Prelude.{List, ℕ};
    ghost use Rattle.std.specs.Option.{option_copied};
    ghost use Rattle.play_script.specs.Parts.{parts_left};

    ghost Value = { List (List ℕ) };

    ghost view = { λ p. parts_left p.byte (option_copied p.rest) };
}

/// Whether the word is this text.
pub(crate) fn is(word: &[u8], text: &[u8]) -> bool
    ensures { result ≡ bytes_eq word.now text.now }
{
    word == text
}

/// Where the byte stands first.
fn find(byte: u8, text: &[u8]) -> Option<usize>
    ensures { result ≡ position (λ b. b == byte) text.now }
{
    text.iter().position(|b| *b == byte)
}

/// What stands before the byte's first place, and what follows it, where there is one.
fn cut(byte: u8, text: &[u8]) -> (&[u8], Option<&[u8]>)
    ensures { parts_of byte text.now ≡ result.0.now ∷ parts_left byte (option_copied result.1) }
{
    match find(byte, text) {
        None => (text, None),
        Some(at) => (&text[..at], Some(&text[at + 1..])),
    }
}

impl<'a> Parts<'a> {
    /// All parts of the text.
    #[tactic(auto, using(crate::proofs::PartsLemmas::parts_few))]
    pub fn of(byte: u8, text: &'a [u8]) -> Parts<'a>
        ensures value { result ≡ parts_of byte text.now }
        ensures few { length result ≤ length text.now + 1 }
    {
        Parts {
            byte,
            rest: Some(text),
        }
    }

    /// Takes the first part that is left.
    pub fn next(&mut self) -> Option<&'a [u8]>
        ensures { MatchOption result ((self.old ≡ []) × (self.new ≡ [])) (λ part. self.old ≡ part.now ∷ self.new) }
    {
        let text = self.rest?;
        let (part, rest) = cut(self.byte, text);
        self.rest = rest;
        Some(part)
    }

    /// Nothing, where no part is left.
    pub(crate) fn end(&self) -> Option<()>
        ensures { result ≡ end self.now }
    {
        match self.rest {
            None => Some(()),
            Some(_) => None,
        }
    }

    /// The one part that is left, where there is one and no more.
    pub(crate) fn only(&mut self) -> Option<&'a [u8]>
        ensures { option_copied result ≡ only self.old }
    {
        let part = self.next()?;
        self.end()?;
        Some(part)
    }

    /// Takes the first part where it begins with the key, and gives what follows the key.
    pub(crate) fn take_value(&mut self, key: &[u8]) -> Option<&'a [u8]>
        ensures value { option_copied result ≡ value_of key.now self.old }
        ensures past { self.new ≡ past key.now self.old }
    {
        let text = self.rest?;
        let (part, rest) = cut(self.byte, text);
        let value = part.strip_prefix(key)?;
        self.rest = rest;
        Some(value)
    }
}
