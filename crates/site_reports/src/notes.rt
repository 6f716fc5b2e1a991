//! What of a workers.properties has no effect, or another one than in mod_jk.
ghost use Rattle.std.specs.Prelude.{◌≡◌, ◌++◌, ℕ, List, IfOk, OnOk};
ghost use Rattle.std.specs.List.{flat_map};
ghost use Rattle.site_config.specs.declared.values.WorkerKind.{WorkerKind as AnyKind};
ghost use Rattle.site_config.specs.Entries.{as_properties, as_property};
ghost use Rattle.site_reports.specs.KindTables.{AreKindTables, ForTables, IsKindTable};
ghost use Rattle.site_reports.specs.Notes.{
  SiteKinds,
  directive_at,
  given_at,
  has_hash,
  has_variable,
  key_at,
  kinds_of,
  misplaced,
  no_effect,
  note_on,
  note_with,
  notes_of,
  other_key,
  owner_of,
  redirect_at,
  secret_at,
  site_kinds,
  users_at,
  value_at,
};

use crate::again::{LineTable, is_again, line_table};
use crate::kinds::{KindTable, kind_table, redirect_table};
use crate::no_effect::{NoEffect, WorkersNote, WorkersNoteList};
use jk_io::{Bytes, ListOf, NoMemory};
use site_config::{Config, Directive, PropertyLine, WorkerKind, behind_worker};
use std::alloc::Global;

/// The types of a configuration's workers, and the last line of each key.
#[derive(Clone, Copy)]
pub(crate) struct LineTables<'a> {
    pub(crate) kinds: &'a KindTable<'a>,
    /// The members whose redirect names another one.
    pub(crate) redirects: &'a KindTable<'a>,
    pub(crate) lines: &'a LineTable<'a>,
}

/// The type of worker that a directive is for; none where it is for each type.
fn owner_of(directive: Directive) -> Option<WorkerKind>
    ensures { result ≡ owner_of directive }
{
    match directive {
        Directive::Kind | Directive::Reference => None,
        Directive::BalanceWorkers
        | Directive::Method
        | Directive::Sticky
        | Directive::Force
        | Directive::RecoverTime
        | Directive::Cookie
        | Directive::Path => Some(WorkerKind::Lb),
        Directive::ReadOnly | Directive::User | Directive::Good | Directive::Bad => {
            Some(WorkerKind::Status)
        }
        Directive::Host
        | Directive::Port
        | Directive::Factor
        | Directive::Distance
        | Directive::Route
        | Directive::Redirect
        | Directive::Activation
        | Directive::PoolSize
        | Directive::Retries
        | Directive::PacketSize
        | Directive::Secret
        | Directive::PingMode
        | Directive::RecoveryOptions
        | Directive::FailOnStatus
        | Directive::DialTimeout
        | Directive::ConnectTimeout
        | Directive::PrepostTimeout
        | Directive::PingTimeout
        | Directive::SocketTimeout
        | Directive::ReplyTimeout
        | Directive::Keepalive
        | Directive::PoolTimeout
        | Directive::PingInterval => Some(WorkerKind::Ajp13),
    }
}

/// Why a directive for one type of worker has no effect at a worker of another type.
fn misplaced(of: WorkerKind, at: WorkerKind) -> Option<NoEffect>
    ensures { result ≡ misplaced of at }
{
    match (of, at) {
        (WorkerKind::Ajp13, WorkerKind::Ajp13) => None,
        (WorkerKind::Lb, WorkerKind::Lb) => None,
        (WorkerKind::Status, WorkerKind::Status) => None,
        (_, at) => Some(NoEffect::OtherType(at)),
    }
}

/// The same of the secret of a worker of this type; a balancer's is that of its members that have none.
fn secret_at(at: Option<WorkerKind>) -> Option<NoEffect>
    ensures { result ≡ secret_at at }
{
    match at {
        Some(WorkerKind::Status) => Some(NoEffect::OtherType(WorkerKind::Status)),
        _ => None,
    }
}

/// The same of a directive that names the users of a status worker.
fn users_at(at: Option<WorkerKind>) -> Option<NoEffect>
    ensures { result ≡ users_at at }
{
    match at {
        Some(WorkerKind::Status) => Some(NoEffect::Users),
        Some(other) => misplaced(WorkerKind::Status, other),
        None => None,
    }
}

/// The same of a directive that is given to a worker of this type.
fn directive_at(directive: Option<Directive>, at: Option<WorkerKind>) -> Option<NoEffect>
    ensures { result ≡ directive_at directive at }
{
    match directive {
        None => Some(NoEffect::Unsupported),
        Some(Directive::Secret) => secret_at(at),
        Some(Directive::User | Directive::Good | Directive::Bad) => users_at(at),
        Some(directive) => misplaced(owner_of(directive)?, at?),
    }
}

/// The same of a key that gives no worker a directive.
fn other_key(entry: &PropertyLine<'_>) -> Option<NoEffect>
    ensures { result ≡ other_key entry.now.key.now }
{
    if entry.is_list() || entry.is_maintain() {
        None
    } else if behind_worker(entry.key).is_some() {
        Some(NoEffect::NoDirective)
    } else {
        Some(NoEffect::NoWorker)
    }
}

/// The same of a line's key.
#[tactic(auto, using(crate::proofs::GivenLemmas::key_given))]
fn key_at(table: &KindTable<'_>, entry: &PropertyLine<'_>) -> Option<NoEffect>
    ensures { (kinds : List (List ℕ × AnyKind)) → IsKindTable table.now kinds → result ≡ key_at kinds entry.now.key.now }
{
    match entry.worker() {
        None => other_key(entry),
        Some((name, directive)) => directive_at(directive, table.get(name).copied()),
    }
}

/// Whether a text has `$(`, which in mod_jk begins the name of another property.
fn has_variable(text: &[u8]) -> bool
    ensures { result ≡ has_variable text.now }
{
    let mut rest = text;
    loop {
        if rest.starts_with(b"$(") {
            return true;
        }
        match rest {
            [] => return false,
            [_, behind @ ..] => rest = behind,
        }
    }
}

/// Whether a text has `#`, at which it would end in mod_jk.
fn has_hash(text: &[u8]) -> bool
    ensures { result ≡ has_hash text.now }
{
    text.iter().any(|byte| *byte == b'#')
}

/// The same of the redirect of a worker, where it is a member and its redirect names no other.
fn redirect_at(at: Option<WorkerKind>, redirects: bool) -> Option<NoEffect>
    ensures { result ≡ redirect_at at redirects }
{
    match (at, redirects) {
        (Some(WorkerKind::Ajp13), false) => Some(NoEffect::Redirect),
        _ => None,
    }
}

/// The same of the value of a directive, besides.
fn given_at(
    tables: &LineTables<'_>,
    name: &[u8],
    directive: Option<Directive>,
    value: &[u8],
) -> Option<NoEffect>
    ensures { (kinds : SiteKinds) → AreKindTables tables.now kinds → result ≡ given_at kinds name.now directive value.now }
{
    match directive {
        Some(Directive::Redirect) => {
            let redirects = tables.redirects.get(name).is_some();
            redirect_at(tables.kinds.get(name).copied(), redirects)
        }
        Some(Directive::Host) if value.is_empty() => Some(NoEffect::NoHost),
        _ => None,
    }
}

/// The same of a value that has an effect, though not the one that mod_jk gives it.
#[tactic(auto, using(crate::proofs::GivenLemmas::value_given))]
fn value_at(tables: &LineTables<'_>, entry: &PropertyLine<'_>) -> Option<NoEffect>
    ensures { (kinds : SiteKinds) → AreKindTables tables.now kinds → result ≡ value_at kinds (as_property entry.now) }
{
    if has_variable(entry.value) {
        return Some(NoEffect::Variable);
    }
    if has_hash(entry.value) {
        return Some(NoEffect::Hash);
    }
    match entry.worker() {
        None => None,
        Some((name, directive)) => given_at(tables, name, directive, entry.value),
    }
}

/// Why a line has no effect.
fn no_effect(tables: &LineTables<'_>, entry: &PropertyLine<'_>) -> Option<NoEffect>
    ensures { ForTables tables.now (λ kinds ps. result ≡ no_effect kinds ps (as_property entry.now)) }
{
    match key_at(tables.kinds, entry) {
        Some(why) => Some(why),
        None => {
            if is_again(tables.lines, entry) {
                Some(NoEffect::Again)
            } else {
                value_at(tables, entry)
            }
        }
    }
}

/// Adds the note on a line, if it has no effect for this.
fn put_why(
    alloc: Global,
    notes: &mut Vec<WorkersNote>,
    entry: &PropertyLine<'_>,
    why: Option<NoEffect>,
) -> Result<(), NoMemory>
    ensures { OnOk result (notes.new.items ≡ notes.old.items ++ note_with (as_property entry.now) why) }
{
    if let Some(why) = why {
        let key = Bytes::from_slice(alloc, entry.key)?;
        let line = entry.line;
        notes.push(WorkersNote { line, key, why })?;
    }
    Ok(())
}

/// Adds the note on each line that has no effect.
fn put_notes(
    alloc: Global,
    notes: &mut Vec<WorkersNote>,
    tables: &LineTables<'_>,
    lines: &[PropertyLine<'_>],
) -> Result<(), NoMemory>
    ensures { ForTables tables.now (λ kinds ps. OnOk result (notes.new.items
        ≡ notes.old.items ++ flat_map (note_on kinds ps) (as_properties lines.now))) }
{
    for line in lines {
        let why = no_effect(tables, line);
        put_why(alloc, notes, line, why)?;
    }
    Ok(())
}

/// The notes on these lines, where this is the table of the workers' types.
fn noted(
    alloc: Global,
    kinds: &KindTable<'_>,
    config: &Config,
    lines: &[PropertyLine<'_>],
) -> Result<WorkersNoteList, NoMemory>
    requires { IsKindTable kinds.now (kinds_of config.now) }
    ensures { IfOk result (λ notes. notes ≡ notes_of (site_kinds config.now) (as_properties lines.now)) }
{
    let redirects = redirect_table(alloc, config)?;
    let last = line_table(alloc, lines)?;
    let tables = LineTables {
        kinds,
        redirects: &redirects,
        lines: &last,
    };
    let mut notes = Vec::new(alloc);
    put_notes(alloc, &mut notes, &tables, lines)?;
    Ok(ListOf::from_vec(notes))
}

/// The notes on the lines of a workers.properties that gives this configuration.
pub(crate) fn notes_of(
    alloc: Global,
    config: &Config,
    lines: &[PropertyLine<'_>],
) -> Result<WorkersNoteList, NoMemory>
    ensures { IfOk result (λ notes. notes ≡ notes_of (site_kinds config.now) (as_properties lines.now)) }
{
    let kinds = kind_table(alloc, config)?;
    noted(alloc, &kinds, config, lines)
}
