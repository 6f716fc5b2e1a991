//! The names of the commands, and the options that each takes.
ghost use Rattle.std.specs.Prelude.{◌≡◌};
ghost use Rattle.std.specs.List.{list_all};
ghost use Rattle.jk_cli.specs.Names.{is_match, may_stand, name_of, takes};
ghost use Rattle.jk_cli.specs.Parts.{part_of, parts_of};

use crate::part::{Part, Parts, is};
use jk_io::Bytes;

/// A command by its name.
#[derive(Clone, Copy)]
pub enum CommandName {
    Play,
    Dry,
    Config,
    Match,
    Check,
    Log,
    Follow,
    Drill,
    Serve,
    Container,
    Stop,
    Demo,
}

/// The command that a word names.
pub fn name_of(word: &[u8]) -> Option<CommandName>
    ensures { result ≡ name_of word.now }
{
    if is(word, b"play") {
        Some(CommandName::Play)
    } else if is(word, b"dry") {
        Some(CommandName::Dry)
    } else if is(word, b"config") {
        Some(CommandName::Config)
    } else if is(word, b"match") {
        Some(CommandName::Match)
    } else if is(word, b"check") {
        Some(CommandName::Check)
    } else if is(word, b"log") {
        Some(CommandName::Log)
    } else if is(word, b"follow") {
        Some(CommandName::Follow)
    } else if is(word, b"drill") {
        Some(CommandName::Drill)
    } else if is(word, b"serve") {
        Some(CommandName::Serve)
    } else if is(word, b"container") {
        Some(CommandName::Container)
    } else if is(word, b"stop") {
        Some(CommandName::Stop)
    } else if is(word, b"demo") {
        Some(CommandName::Demo)
    } else {
        None
    }
}

fn takes(command: CommandName, option: &[u8]) -> bool
    ensures { result ≡ takes command option.now }
{
    match command {
        CommandName::Serve => {
            is(option, b"clients")
                || is(option, b"journal")
                || is(option, b"watch")
                || is(option, b"idle")
                || is(option, b"log")
                || is(option, b"format")
                || is(option, b"control")
                || is(option, b"cut")
                || is(option, b"head")
                || is(option, b"keep")
                || is(option, b"rate")
                || is(option, b"waiting")
                || is(option, b"grace")
        }
        CommandName::Container => is(option, b"clients"),
        _ => false,
    }
}

fn is_match(command: CommandName) -> bool
    ensures { result ≡ is_match command }
{
    match command {
        CommandName::Match => true,
        _ => false,
    }
}

fn may_stand(command: CommandName, part: Part) -> bool
    ensures { result ≡ may_stand command (part_of part.entry) }
{
    match part {
        Part::Place(_) => true,
        Part::Given(option, _) => takes(command, option),
        Part::Verbose => is_match(command),
        Part::Stray => false,
    }
}

/// Whether each part of the words may stand after the command.
pub(crate) fn all_may_stand(command: CommandName, words: &[Bytes]) -> bool
    ensures { result ≡ list_all (may_stand command) (parts_of words.now) }
{
    let mut parts = Parts::of(words);
    while let Some(part) = parts.next() {
        if !may_stand(command, part) {
            return false;
        }
    }
    true
}
