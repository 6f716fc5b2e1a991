//! The texts that are printed where the words are no command, and those that words ask for.
ghost use Rattle.std.specs.Prelude.{◌≡◌, IfOk, Some, is_some, map, option_map};
ghost use Rattle.std.specs.Str.{bytes_eq};
ghost use Rattle.jk_cli.specs.Names.{name_of};
ghost use Rattle.plain_commands.specs.AskedTexts.{IsLineFor, asked_alone, asked_by, asked_of_command, asks_help, asks_version};

use clap::error::ErrorKind;
use jk_cli::{CommandName, command, name_of};
use jk_io::{Bytes, NoMemory};
use std::alloc::Global;

/// What is printed last where the words are no command, after what is wrong with them and how the command is used.
pub const USAGE: &str = "jkd --help shows the commands.\n";

fn is(word: &Bytes, text: &[u8]) -> bool
    ensures { result ≡ bytes_eq word.now text.now }
{
    word.as_slice() == text
}

fn asks_help(word: &Bytes) -> bool
    ensures { result ≡ asks_help word.now }
{
    is(word, b"--help") || is(word, b"-h")
}

fn asks_version(word: &Bytes) -> bool
    ensures { result ≡ asks_version word.now }
{
    is(word, b"--version") || is(word, b"-V")
}

/// A text that words ask for in place of a command.
#[derive(Clone, Copy)]
pub enum AskedText {
    Version,
    /// The help of the program.
    Help,
    /// The help of a command.
    HelpOf(CommandName),
}

// The help of the command that a word names.
fn help_of(word: &Bytes) -> Option<AskedText>
    ensures { result ≡ option_map AskedText.HelpOf (name_of word.now) }
{
    let name = name_of(word.as_slice())?;
    Some(AskedText::HelpOf(name))
}

fn asked_alone(word: &Bytes) -> Option<AskedText>
    ensures { result ≡ asked_alone word.now }
{
    if asks_help(word) || is(word, b"help") {
        Some(AskedText::Help)
    } else if asks_version(word) {
        Some(AskedText::Version)
    } else {
        None
    }
}

fn asked_of_command(first: &Bytes, second: &Bytes) -> Option<AskedText>
    ensures { result ≡ asked_of_command first.now second.now }
{
    if asks_help(second) {
        help_of(first)
    } else if is(first, b"help") {
        help_of(second)
    } else {
        None
    }
}

/// The text that the words ask for: by `--help`, `--version`, `COMMAND --help`, or `help`, alone or before a command.
fn asked_by(words: &[Bytes]) -> Option<AskedText>
    ensures { result ≡ asked_by words.now }
{
    match words {
        [word] => asked_alone(word),
        [first, second] => asked_of_command(first, second),
        _ => None,
    }
}

// The word that names a command.
fn word_of(name: CommandName) -> &'static str
    ensures { name_of result.now ≡ Some name }
{
    match name {
        CommandName::Play => "play",
        CommandName::Dry => "dry",
        CommandName::Config => "config",
        CommandName::Match => "match",
        CommandName::Check => "check",
        CommandName::Log => "log",
        CommandName::Follow => "follow",
        CommandName::Drill => "drill",
        CommandName::Serve => "serve",
        CommandName::Container => "container",
        CommandName::Stop => "stop",
        CommandName::Demo => "demo",
    }
}

// What `clap` is asked for a text.
fn line_for(alloc: Global, asked: AskedText) -> Result<Vec<&'static str>, NoMemory>
    ensures { IfOk result (λ line. IsLineFor asked (map (λ word. word.now) line.items)) }
{
    let mut line = Vec::new(alloc);
    line.push("jkd")?;
    match asked {
        AskedText::Version => line.push("--version")?,
        AskedText::Help => line.push("--help")?,
        AskedText::HelpOf(name) => {
            line.push(word_of(name))?;
            line.push("--help")?;
        }
    }
    Ok(line)
}

// The text of an answer of `clap`.
fn shown_text(alloc: Global, shown: &clap::Error) -> Result<String, NoMemory> {
    match shown.kind() {
        ErrorKind::OutOfMemory => Err(NoMemory),
        _ => Ok(format!(in alloc; "{shown}")?),
    }
}

// The text that `clap` answers to this line.
fn text_for(alloc: Global, line: &[&str]) -> Result<String, NoMemory> {
    match command(alloc)?.try_get_matches_from(line) {
        Ok(_) => Ok(String::new(alloc)),
        Err(shown) => shown_text(alloc, &shown),
    }
}

/// The text that the words ask for, where they ask for one: what `clap` answers to the line for it. What stands in it is `clap`'s.
pub fn asked_text(alloc: Global, words: &[Bytes]) -> Result<Option<String>, NoMemory>
    ensures { IfOk result (λ text. is_some text ≡ is_some (asked_by words.now)) }
{
    match asked_by(words) {
        Some(asked) => Ok(Some(text_for(alloc, line_for(alloc, asked)?.as_slice())?)),
        None => Ok(None),
    }
}
