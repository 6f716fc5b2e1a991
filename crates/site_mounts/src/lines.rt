//! Reading a map, line by line.
ghost use Rattle.std.specs.Prelude.{◌≡◌, ◌≤◌, ◌+◌, ◌++◌, [], map, length, true, Some, IfOk, OnOk};
ghost use Rattle.site_config.specs.Properties.{is_silent};
ghost use Rattle.site_mounts.specs.Lines.{made_rules, read_text, rules_of, said, with_rules};
ghost use Rattle.site_mounts.specs.MapNotes.{line_notes, map_notes, rule_notes};
ghost use Rattle.site_mounts.specs.Refusals.{AnswersMap, AnswersRules, reason_in};
ghost use Rattle.site_mounts.specs.Sides.{as_patterns};
ghost use Rattle.site_mounts.specs.Sites.{stands_in};
ghost use Rattle.jk_io.specs.declared.whole_input.TheConstants.{MAX_INPUT_BYTES};

use crate::error::{MapError, MapReason, RulesError, refused};
use crate::map_note::{MapNote, NotedMap};
use crate::pattern::Pattern;
use crate::role::role_of;
use crate::rule::{Role, Rule};
use crate::side::{Patterns, left_of, patterns_of};
use crate::uri_map::UriMap;
use crate::workers::Workers;
use jk_io::{Bytes, ListOf, NoMemory, trim};
use site_config::{Config, cut_at, first_line, without_mark};
use std::alloc::Global;

/// The rules and the notes of the lines so far.
#[derive(Drop)]
struct LinesRead {
    rules: Vec<Rule>,
    notes: Vec<MapNote>,
}

fn none_read(alloc: Global) -> LinesRead
    ensures rules { result.rules.items ≡ [] }
    ensures notes { result.notes.items ≡ [] }
{
    LinesRead {
        rules: Vec::new(alloc),
        notes: Vec::new(alloc),
    }
}

/// The pattern P, or P with S after it.
fn pattern_with(alloc: Global, first: &[u8], more: &[u8]) -> Result<Pattern, NoMemory>
    ensures { IfOk result (λ p. p ≡ first.now ++ more.now) }
{
    let mut text = Bytes::from_slice(alloc, first)?;
    text.extend(more)?;
    Ok(Pattern::new(text))
}

/// Adds the rules of a line at the end, one for each pattern.
fn push_rules(
    alloc: Global,
    out: &mut Vec<Rule>,
    line: u32,
    patterns: Patterns<'_>,
    role: Role,
) -> Result<(), NoMemory>
    ensures added { OnOk result (out.new.items ≡ out.old.items ++ made_rules line role (as_patterns patterns.entry)) }
    ensures count { OnOk result (length out.new.items ≤ length out.old.items + 2) }
{
    let pattern = pattern_with(alloc, patterns.first, b"")?;
    out.push(Rule {
        line,
        pattern,
        role,
    })?;
    if let Some(more) = patterns.more {
        let pattern = pattern_with(alloc, patterns.first, more)?;
        out.push(Rule {
            line,
            pattern,
            role,
        })?;
    }
    Ok(())
}

/// Whether a trimmed line is blank or a comment.
fn is_silent(text: &[u8]) -> bool
    ensures { result ≡ is_silent text.now }
{
    text.is_empty() || text[0] == b'#'
}

/// Adds the rules and the notes of a line with these two sides.
fn push_sides(
    alloc: Global,
    out: &mut LinesRead,
    workers: &Workers<'_>,
    line: u32,
    left: &[u8],
    right: &[u8],
) -> Result<(), RulesError>
    ensures read { AnswersRules (λ _. out.new.rules.items) result
        (with_rules out.old.rules.items (rules_of workers.now line (Some (left.now, right.now)))) }
    ensures noted { OnOk result (out.new.notes.items
        ≡ out.old.notes.items ++ rule_notes workers.now line (Some (left.now, right.now))) }
    ensures count { OnOk result (length out.new.rules.items ≤ length out.old.rules.items + 2) }
{
    let side = left_of(trim(left));
    let Some(patterns) = patterns_of(side.pattern) else {
        return Err(refused(line, MapReason::BadPattern));
    };
    let mut right = role_of(alloc, workers, line, side.exclusion, right)?;
    if !side.off {
        push_rules(alloc, &mut out.rules, line, patterns, right.role)?;
        out.notes.append(&mut right.notes)?;
    }
    Ok(())
}

/// Adds the rules and the notes of a trimmed line.
fn push_line(
    alloc: Global,
    out: &mut LinesRead,
    workers: &Workers<'_>,
    line: u32,
    text: &[u8],
) -> Result<(), RulesError>
    ensures read { AnswersRules (λ _. out.new.rules.items) result
        (with_rules out.old.rules.items (said workers.now line text.now)) }
    ensures noted { OnOk result (out.new.notes.items
        ≡ out.old.notes.items ++ line_notes workers.now line text.now) }
    ensures count { OnOk result (length out.new.rules.items ≤ length out.old.rules.items + 2) }
{
    if is_silent(text) {
        return Ok(());
    }
    match cut_at(text, b'=') {
        None => Err(refused(line, MapReason::BadPattern)),
        Some((left, right)) => push_sides(alloc, out, workers, line, left, right),
    }
}

/// For what a trimmed line is refused, if it is.
pub fn refusal_of(
    alloc: Global,
    workers: &Workers<'_>,
    line: u32,
    text: &[u8],
) -> Result<Option<MapReason>, NoMemory>
    ensures { IfOk result (λ reason. reason ≡ reason_in (said workers.now line text.now)) }
{
    let mut read = none_read(alloc);
    match push_line(alloc, &mut read, workers, line, text) {
        Ok(()) => Ok(None),
        Err(RulesError::Refused(refusal)) => Ok(Some(refusal.reason)),
        Err(RulesError::NoMemory) => Err(NoMemory),
    }
}

/// The map of a text with the notes on it, or its first refusal.
pub fn read_rules(alloc: Global, text: &[u8], config: &Config) -> Result<NotedMap, RulesError>
    requires { length text.now ≤ MAX_INPUT_BYTES }
    ensures read { AnswersRules (λ noted. noted.map) result (read_text config.now text.now) }
    ensures noted { IfOk result (λ noted. noted.notes ≡ map_notes config.now text.now) }

    // All that the map names stands in the configuration.
    ensures stands { IfOk result (λ noted. stands_in config.now noted.map ≡ true) }
{
    let workers = Workers::new(alloc, config)?;
    let mut read = none_read(alloc);
    let mut number: u32 = 0;
    let mut rest = without_mark(text);
    while let Some((line, behind)) = first_line(rest) {
        number += 1;
        push_line(alloc, &mut read, &workers, number, trim(line))?;
        rest = behind;
    }
    Ok(NotedMap {
        map: UriMap::from_vec(read.rules),
        notes: ListOf::from_vec(read.notes),
    })
}

/// The map of a text, or its first refusal, with the number of that.
pub fn read_map(alloc: Global, text: &[u8], config: &Config) -> Result<UriMap, MapError>
    requires { length text.now ≤ MAX_INPUT_BYTES }
    ensures read { AnswersMap (λ map. map) result (read_text config.now text.now) }

    // All that the map names stands in the configuration.
    ensures stands { IfOk result (λ map. stands_in config.now map ≡ true) }
{
    Ok(read_rules(alloc, text, config)?.map)
}
