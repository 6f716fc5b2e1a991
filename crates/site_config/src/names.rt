//! Names of workers, and lists of names.
ghost use Rattle.std.specs.Prelude.{◌≡◌, ◌++◌, [], map, OnOk};
ghost use Rattle.std.specs.List.{list_all};
ghost use Rattle.site_config.specs.Names.{is_letter_or_digit, is_name_byte, is_name, word_first, words};

use crate::cut::cut_at_separator;
use jk_io::NoMemory;

fn is_letter_or_digit(b: u8) -> bool
    ensures { result ≡ is_letter_or_digit b }
{
    (48 <= b && b <= 57) || ((65 <= b && b <= 90) || (97 <= b && b <= 122))
}

fn is_name_byte(b: u8) -> bool
    ensures { result ≡ is_name_byte b }
{
    is_letter_or_digit(b) || (b == b'-' || b == b'_')
}

fn are_name_bytes(text: &[u8]) -> bool
    ensures { result ≡ list_all is_name_byte text.now }
{
    text.iter().all(|b| is_name_byte(*b))
}

/// Whether the text is a worker's name: letters, digits, `-` and `_`, at least one.
pub fn is_name(text: &[u8]) -> bool
    ensures { result ≡ is_name text.now }
{
    !text.is_empty() && are_name_bytes(text)
}

/// Adds a word at the end, unless it is empty.
fn push_word<'t>(out: &mut Vec<&'t [u8]>, word: &'t [u8]) -> Result<(), NoMemory>
    ensures { OnOk result (map (λ w. w.now) out.new.items ≡ map (λ w. w.now) out.old.items ++ word_first word.now []) }
{
    if !word.is_empty() {
        out.push(word)?;
    }
    Ok(())
}

/// Adds the words of a list at the end, in order.
pub fn push_words<'t>(out: &mut Vec<&'t [u8]>, text: &'t [u8]) -> Result<(), NoMemory>
    ensures { OnOk result (map (λ w. w.now) out.new.items ≡ map (λ w. w.now) out.old.items ++ words text.now) }
{
    let mut rest = text;
    loop {
        match cut_at_separator(rest) {
            Some((word, behind)) => {
                push_word(out, word)?;
                rest = behind;
            }
            None => return push_word(out, rest),
        }
    }
}
