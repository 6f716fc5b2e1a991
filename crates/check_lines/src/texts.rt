//! Words of a line, and numbers.

use jk_io::{Bytes, NoMemory, parse_decimal, put_decimal};
use std::alloc::Global;

/// The words of a line.
pub fn words_of<'t>(alloc: Global, line: &'t str) -> Result<Vec<&'t str>, NoMemory> {
    let mut words = Vec::new(alloc);
    for word in line.split(' ') {
        words.push(word)?;
    }
    Ok(words)
}

/// The first word of a line, and what stands after it.
pub fn first_word(line: &str) -> (&str, &str) {
    line.split_once(' ').unwrap_or((line, ""))
}

pub fn long(word: &str) -> Option<u64> {
    parse_decimal(word.as_bytes())
}

pub fn short(word: &str) -> Option<u32> {
    u32::try_from(long(word)?).ok()
}

/// A number, or `-` for none. None where the word is neither.
pub fn given(word: &str) -> Option<Option<u32>> {
    match word {
        "-" => Some(None),
        number => Some(Some(short(number)?)),
    }
}

/// Puts a line and its LF.
pub fn put_line(out: &mut Bytes, line: &str) -> Result<(), NoMemory> {
    out.extend(line.as_bytes())?;
    out.push(b'\n')
}

/// Puts a text, and a number after it.
pub fn put_number(out: &mut Bytes, text: &str, number: u64) -> Result<(), NoMemory> {
    out.extend(text.as_bytes())?;
    put_decimal(out, u128::from(number))
}

/// Puts a text, and a number or `-` after it.
pub fn put_given(out: &mut Bytes, text: &str, number: Option<u64>) -> Result<(), NoMemory> {
    match number {
        Some(number) => put_number(out, text, number),
        None => {
            out.extend(text.as_bytes())?;
            out.push(b'-')
        }
    }
}

/// Puts a text, and tells that the line could be asked.
pub fn say(out: &mut Bytes, text: &str) -> Result<bool, NoMemory> {
    out.extend(text.as_bytes())?;
    Ok(true)
}
