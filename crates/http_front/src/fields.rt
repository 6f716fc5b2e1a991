//! Readings of a head's field lines: the value of a name that may stand once, and words in lists.
ghost use Rattle.std.specs.Prelude.{◌≡◌, codes};
ghost use Rattle.http_front.specs.Fields.{is_named, named, same_word, has_word, says_close, says_expect};
ghost use Rattle.http_front.specs.Lone.{IsLone};

use jk_io::{Bytes, trim};

/// The values of the lines of one name, as far as a name that may stand once asks.
#[derive(Clone, Copy)]
pub enum Lone<'a> {
    /// No line has the name.
    Absent,
    /// One line has it, with this value.
    One(&'a [u8]),
    /// More lines than one have it.
    More,
}

/// Whether two words are the same, in either case.
pub fn same_word(a: &[u8], b: &[u8]) -> bool
    ensures { result ≡ same_word a.now b.now }
{
    a.eq_ignore_ascii_case(b)
}

fn is_named(line: &(Bytes, Bytes), name: &[u8]) -> bool
    ensures { result ≡ is_named name.now line.now }
{
    same_word(line.0.as_slice(), name)
}

/// The values of the lines of this name.
pub fn only_value<'a>(lines: &'a [(Bytes, Bytes)], name: &[u8]) -> Lone<'a>
    ensures { IsLone (named name.now lines.now) result }
{
    let mut found = Lone::Absent;
    for line in lines {
        if is_named(line, name) {
            found = match found {
                Lone::Absent => Lone::One(line.1.as_slice()),
                Lone::One(_) | Lone::More => Lone::More,
            };
        }
    }
    found
}

/// Whether the word is an element of the value's list, which commas separate.
fn has_word(value: &[u8], word: &[u8]) -> bool
    ensures { result ≡ has_word word.now value.now }
{
    value
        .split(|b| *b == b',')
        .any(|part| same_word(trim(part), word))
}

/// Whether a Connection line has the word `close`.
pub fn says_close(lines: &[(Bytes, Bytes)]) -> bool
    ensures { result ≡ says_close lines.now }
{
    lines.iter().any(|line| is_named(line, b"connection") && has_word(line.1.as_slice(), b"close"))
}

/// Whether an Expect line is `100-continue`.
pub fn says_expect(lines: &[(Bytes, Bytes)]) -> bool
    ensures { result ≡ says_expect lines.now }
{
    lines.iter().any(|line| is_named(line, b"expect")
        && same_word(line.1.as_slice(), b"100-continue"))
}
