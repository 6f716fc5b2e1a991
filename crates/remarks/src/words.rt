//! Remarks on words that are no command.
ghost use Rattle.std.specs.Prelude.{IfOk};
ghost use Rattle.remarks.specs.Said.{IsLine};

use crate::values::said_of_values;
use clap::Error;
use clap::error::ErrorKind;
use jk_cli::command;
use jk_io::{Bytes, NoMemory};
use std::alloc::Global;
use std::str;

/// The words behind `help`, which asks for the help of their command; any others as they are.
fn behind_help(words: &[Bytes]) -> &[Bytes] {
    match words {
        [first, second, ..] if first.as_slice() == b"help".as_slice() && second.len() > 0 =>
            &words[1..],
        _ => words,
    }
}

/// The words as a shell gives them, the program's name first.
fn line_of<'w>(alloc: Global, words: &'w [Bytes]) -> Result<Vec<&'w str>, NoMemory> {
    let mut line = Vec::new(alloc);
    line.push("jkd")?;
    for word in behind_help(words) {
        line.push(str::from_utf8(word.as_slice()).unwrap_or(""))?;
    }
    Ok(line)
}

/// A text up to what it says of the help.
fn without_hint(text: &str) -> &str {
    match text.split_once("\n\nFor more information") {
        Some((first, _)) => first,
        None => text,
    }
}

fn told_text(alloc: Global, text: &str) -> Result<String, NoMemory> {
    Ok(String::from_str(alloc, without_hint(text))?)
}

/// What the parser of the help says: the word at fault, one like it, and how the command is used.
fn said_by_parser(alloc: Global, error: &Error) -> Result<String, NoMemory> {
    match error.kind() {
        ErrorKind::OutOfMemory => Err(NoMemory),
        _ => told_text(alloc, format!(in alloc; "{error}")?.as_str()),
    }
}

fn parsed(alloc: Global, line: &[&str]) -> Result<String, NoMemory> {
    match command(alloc)?.try_get_matches_from(line) {
        Ok(matches) => said_of_values(alloc, &matches),
        Err(error) => said_by_parser(alloc, &error),
    }
}

/// What is wrong with words that are no command.
pub(crate) fn said_of_words(alloc: Global, words: &[Bytes]) -> Result<Bytes, NoMemory>
    ensures { IfOk result IsLine }
{
    let mut said = Bytes::new(alloc);
    said.extend(parsed(alloc, line_of(alloc, words)?.as_slice())?.as_bytes())?;
    said.push(b'\n')?;
    Ok(said)
}
