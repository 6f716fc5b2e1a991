//! The words after a command's name, part by part.
ghost use Rattle.std.specs.Prelude.{◌≡◌, [], ◌∷◌, MatchOption, codes, if◌then◌else◌, position};
ghost use Rattle.std.specs.Str.{bytes_eq};
ghost use Rattle.jk_cli.specs.Parts.{Stray, Verbose, alone, asks_value, equals_in, given_at, is_dashed, is_end, part_of, parts_of};

use jk_io::Bytes;
use std::marker::Model;

/// A part of a command line.
#[derive(Clone, Copy)]
pub(crate) enum Part<'a> {
    /// A word that is read by its place.
    Place(&'a [u8]),
    /// An option: its name without `--`, and its value.
    Given(&'a [u8], &'a [u8]),
    /// The flag `-v`.
    Verbose,
    /// Another word with a leading `-`, or an option without its value.
    Stray,
}

/// The parts of words that are left. Contracts see the list of them.
#[derive(Drop)]
pub(crate) struct Parts<'a> {
    words: &'a [Bytes],
    /// Whether `--` was read.
    ended: bool,
}

impl<'a> Model for Parts<'a> {
    ghost use Rattle.std.specs.Prelude.{List};
    ghost use Rattle.jk_cli.specs.Parts.{Part, parts_left};

    ghost Value = { List Part };

    ghost view = { λ p. parts_left p.ended p.words.now };
}

/// Whether the word is this text.
pub(crate) fn is(word: &[u8], text: &[u8]) -> bool
    ensures { result ≡ bytes_eq word.now text.now }
{
    word == text
}

fn is_dashed(word: &[u8]) -> bool
    ensures { result ≡ is_dashed word.now }
{
    match word {
        [first, _, ..] => *first == b'-',
        _ => false,
    }
}

fn equals_in(word: &[u8]) -> Option<usize>
    ensures { result ≡ equals_in word.now }
{
    word.iter().position(|b| *b == b'=')
}

fn asks_value(word: &[u8]) -> bool
    ensures { result ≡ asks_value word.now }
{
    word.starts_with(b"--") && equals_in(word).is_none()
}

// An option of which the name and the value stand in one word.
fn given<'a>(text: &'a [u8]) -> Part<'a>
    ensures { part_of result ≡ given_at (equals_in text.now) text.now }
{
    match equals_in(text) {
        None => Part::Stray,
        Some(place) => Part::Given(&text[..place], &text[place + 1..]),
    }
}

// A word with one `-`.
fn flag<'a>(word: &'a [u8]) -> Part<'a>
    ensures { part_of result ≡ (if bytes_eq word.now (codes "-v") then Verbose else Stray) }
{
    if is(word, b"-v") {
        Part::Verbose
    } else {
        Part::Stray
    }
}

fn alone<'a>(word: &'a [u8]) -> Part<'a>
    ensures { part_of result ≡ alone word.now }
{
    if !is_dashed(word) {
        return Part::Place(word);
    }
    match word.strip_prefix(b"--") {
        None => flag(word),
        Some(text) => given(text),
    }
}

impl<'a> Parts<'a> {
    /// All parts of the words.
    pub fn of(words: &'a [Bytes]) -> Parts<'a>
        ensures { result ≡ parts_of words.now }
    {
        Parts {
            words,
            ended: false,
        }
    }

    /// Takes the first part that is left.
    pub fn next(&mut self) -> Option<Part<'a>>
        ensures { MatchOption result ((self.old ≡ []) × (self.new ≡ [])) (λ part. self.old ≡ part_of part ∷ self.new) }
    {
        let (word, words) = self.words.split_first()?;
        let word = word.as_slice();
        self.words = words;
        if self.ended {
            return Some(Part::Place(word));
        }
        if is(word, b"--") {
            self.ended = true;
            let (word, words) = words.split_first()?;
            self.words = words;
            return Some(Part::Place(word.as_slice()));
        }
        match words {
            [next, more @ ..] if asks_value(word) && !is_dashed(next.as_slice()) => {
                self.words = more;
                Some(Part::Given(&word[2..], next.as_slice()))
            }
            _ => Some(alone(word)),
        }
    }
}
