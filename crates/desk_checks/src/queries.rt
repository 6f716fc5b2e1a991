//! Rows of queries: what a query means, and what it asks a balancer for.

use check_lines::begin::{is_opening_line, opening_of};
use check_lines::calls::tell_entry;
use check_lines::judging::{Teller, judge_lines};
use check_lines::texts::{first_word, put_given, put_line, say};
use jk_io::{Bytes, NoMemory};
use lb_model::{Activation, Answer, Call, Command, Entry, LbConfig};
use status_worker::{
    CommandList, Mime, NamedChange, NamedRedirect, StatusCommand, StatusError, commands_for,
    member_named, read_command, read_mime,
};
use std::alloc::Global;

/// A row of queries as far as it is taken.
#[derive(Drop)]
struct QueryRow {
    /// The lines of the balancer's opening.
    lines: Bytes,
}

/// The command that a query means; none where it means nothing.
fn command_of(alloc: Global, query: Option<&[u8]>) -> Result<Option<StatusCommand>, NoMemory> {
    match read_command(alloc, query) {
        Ok(command) => Ok(Some(command)),
        Err(StatusError::BadQuery) => Ok(None),
        Err(StatusError::NoMemory) => Err(NoMemory),
    }
}

/// What a query asks a balancer for; none where it means nothing, or names no member.
fn commands_of(
    alloc: Global,
    config: &LbConfig,
    query: &str,
) -> Result<Option<CommandList>, NoMemory> {
    match command_of(alloc, Some(query.as_bytes()))? {
        Some(command) => commands_for(alloc, config, &command),
        None => Ok(None),
    }
}

/// What a query asks for, of the balancer whose opening these lines are.
pub fn commands_asked(
    alloc: Global,
    lines: &[u8],
    query: &str,
) -> Result<Option<CommandList>, NoMemory> {
    match opening_of(alloc, lines)? {
        Some(opening) => commands_of(alloc, &opening.config, query),
        None => Ok(None),
    }
}

fn put_name(out: &mut Bytes, name: &Bytes) -> Result<(), NoMemory> {
    out.extend(b" [")?;
    out.extend(name.as_slice())?;
    out.push(b']')
}

fn put_names(out: &mut Bytes, word: &[u8], w: &Bytes, sw: &Bytes) -> Result<(), NoMemory> {
    out.extend(word)?;
    put_name(out, w)?;
    put_name(out, sw)
}

fn put_of(out: &mut Bytes, word: &[u8], w: &Bytes) -> Result<(), NoMemory> {
    out.extend(word)?;
    put_name(out, w)
}

fn activation_text(activation: Option<Activation>) -> &'static [u8] {
    match activation {
        None => b" -",
        Some(Activation::Active) => b" active",
        Some(Activation::Disabled) => b" disabled",
        Some(Activation::Stopped) => b" stopped",
    }
}

fn put_redirect(out: &mut Bytes, redirect: &NamedRedirect) -> Result<(), NoMemory> {
    match redirect {
        NamedRedirect::Keep => out.extend(b" -"),
        NamedRedirect::None => out.extend(b" none"),
        NamedRedirect::To(name) => put_name(out, name),
    }
}

fn put_change(out: &mut Bytes, change: &NamedChange) -> Result<(), NoMemory> {
    out.extend(activation_text(change.activation))?;
    put_given(out, " ", wide(change.factor))?;
    put_given(out, " ", wide(change.distance))?;
    put_redirect(out, &change.redirect)
}

fn wide(number: Option<u32>) -> Option<u64> {
    Some(u64::from(number?))
}

fn put_update(
    out: &mut Bytes,
    w: &Bytes,
    sw: &Bytes,
    change: &NamedChange,
) -> Result<(), NoMemory> {
    put_names(out, b"update", w, sw)?;
    put_change(out, change)
}

/// Puts a command: its balancer, its member and its change.
fn put_meaning(out: &mut Bytes, command: &StatusCommand) -> Result<(), NoMemory> {
    match command {
        StatusCommand::List { w: None } => out.extend(b"list"),
        StatusCommand::List { w: Some(w) } => put_of(out, b"list", w),
        StatusCommand::Update { w, sw, change } => put_update(out, w, sw, change),
        StatusCommand::Reset { w, sw: None } => put_of(out, b"reset", w),
        StatusCommand::Reset { w, sw: Some(sw) } => put_names(out, b"reset", w, sw),
        StatusCommand::Recover { w, sw } => put_names(out, b"recover", w, sw),
    }
}

/// Puts what a query means.
fn tell_meaning(alloc: Global, query: Option<&[u8]>, out: &mut Bytes) -> Result<bool, NoMemory> {
    match command_of(alloc, query)? {
        Some(command) => put_meaning(out, &command)?,
        None => out.extend(b"bad query")?,
    }
    Ok(true)
}

fn put_kind(out: &mut Bytes, command: &StatusCommand) -> Result<bool, NoMemory> {
    let kind: &[u8] = if command.is_change() {
        b"a change"
    } else {
        b"no change"
    };
    out.extend(kind)?;
    match command.worker() {
        Some(w) => put_name(out, w)?,
        None => out.extend(b" of all")?,
    }
    Ok(true)
}

/// Puts whether a query changes something, and whether it names a balancer.
fn tell_kind(alloc: Global, query: &str, out: &mut Bytes) -> Result<bool, NoMemory> {
    match command_of(alloc, Some(query.as_bytes()))? {
        Some(command) => put_kind(out, &command),
        None => Ok(false),
    }
}

/// Puts a command as an entry of a journal that begins.
fn put_command(out: &mut Bytes, command: Command) -> Result<(), NoMemory> {
    let entry = Entry {
        seq: 0,
        session: 0,
        at: 0,
        call: Call::Admin(command),
        answer: Answer::Done,
    };
    out.extend(b", ")?;
    tell_entry(out, &entry)
}

fn put_commands(out: &mut Bytes, commands: &[Command]) -> Result<bool, NoMemory> {
    out.extend(b"commands")?;
    for command in commands {
        put_command(out, *command)?;
    }
    Ok(true)
}

fn tell_commands(
    alloc: Global,
    config: &LbConfig,
    query: &str,
    out: &mut Bytes,
) -> Result<bool, NoMemory> {
    match commands_of(alloc, config, query)? {
        Some(commands) => put_commands(out, commands.as_slice()),
        None => say(out, "no member"),
    }
}

fn tell_member(config: &LbConfig, name: &str, out: &mut Bytes) -> Result<bool, NoMemory> {
    put_given(out, "member ", wide(member_named(config, name.as_bytes())))?;
    Ok(true)
}

fn tell_of_config(
    alloc: Global,
    config: &LbConfig,
    asked: &str,
    out: &mut Bytes,
) -> Result<bool, NoMemory> {
    match first_word(asked) {
        ("asks", query) => tell_commands(alloc, config, query, out),
        ("named", name) => tell_member(config, name, out),
        _ => Ok(false),
    }
}

fn tell_of_members(
    alloc: Global,
    lines: &[u8],
    asked: &str,
    out: &mut Bytes,
) -> Result<bool, NoMemory> {
    match opening_of(alloc, lines)? {
        Some(opening) => tell_of_config(alloc, &opening.config, asked, out),
        None => Ok(false),
    }
}

/// Puts how the page of a query is written.
fn tell_mime(alloc: Global, query: &str, out: &mut Bytes) -> Result<bool, NoMemory> {
    match read_mime(alloc, Some(query.as_bytes()))? {
        Mime::Txt => say(out, "txt"),
        Mime::Html => say(out, "html"),
        Mime::Prom => say(out, "prom"),
    }
}

impl Teller for QueryRow {
    fn tell(&mut self, alloc: Global, asked: &str, out: &mut Bytes) -> Result<bool, NoMemory> {
        if is_opening_line(asked) {
            put_line(&mut self.lines, asked)?;
            return say(out, asked);
        }
        match first_word(asked) {
            ("none", _) => tell_meaning(alloc, None, out),
            ("means", query) => tell_meaning(alloc, Some(query.as_bytes()), out),
            ("written", query) => tell_mime(alloc, query, out),
            ("kind", query) => tell_kind(alloc, query, out),
            _ => tell_of_members(alloc, self.lines.as_slice(), asked, out),
        }
    }
}

pub fn judge(alloc: Global, row: &str, shown: &mut String) -> Result<u64, NoMemory> {
    let lines = Bytes::new(alloc);
    judge_lines(alloc, &mut QueryRow { lines }, row, shown)
}
