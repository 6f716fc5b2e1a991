//! The parts `name=value` after a rule's worker, and the terms that they give.
ghost use Rattle.std.specs.Prelude.{◌≡◌, ◌≤◌, ◌||◌, if◌then◌else◌, Some, None, length, true, IfOk};
ghost use Rattle.std.specs.Option.{option_and_then, option_map};
ghost use Rattle.std.specs.List.{list_all};
ghost use Rattle.std.specs.Str.{bytes_eq};
ghost use Rattle.site_mounts.specs.PartViews.{as_part, as_parts};
ghost use Rattle.site_mounts.specs.Parts.{disabled, given_terms, is_good, is_yes, last_value, millis_of, names_in, part_of, parts_of, pieces_behind, pieces_of, reply_timeout, sticky_ignore, stopped, terms_of, value_of};
ghost use Rattle.site_mounts.specs.Members.{set_of};
ghost use Rattle.lb_model.specs.declared.config.TheConstants.{MAX_MEMBERS};

use crate::members::{listed_set, lists_members};
use jk_io::{NoMemory, trim};
use lb_model::{MemberConfig, Terms};
use site_config::{cut_at, number_in, truth_of};
use std::alloc::Global;

/// A part, its name and value without outer blanks.
#[derive(Clone, Copy)]
pub(crate) struct Part<'t> {
    pub(crate) name: &'t [u8],
    pub(crate) value: &'t [u8],
}

/// The part of a text; none where it has no `=`.
fn part_of(text: &[u8]) -> Option<Part<'_>>
    ensures { option_map as_part result ≡ part_of text.now }
{
    let (name, value) = cut_at(text, b'=')?;
    Some(Part {
        name: trim(name),
        value: trim(value),
    })
}

/// The parts of a text, which stand between its `;`; none where one has no `=`.
fn parts_of(alloc: Global, text: &[u8]) -> Result<Option<Vec<Part<'_>>>, NoMemory>
    ensures { IfOk result (λ parts. option_map (λ v. as_parts v.items) parts ≡ parts_of (pieces_of text.now)) }
{
    let mut parts = Vec::new(alloc);
    let mut rest = text;
    loop {
        match cut_at(rest, b';') {
            Some((piece, more)) => {
                let Some(part) = part_of(piece) else {
                    return Ok(None);
                };
                parts.push(part)?;
                rest = more;
            }
            None => {
                let Some(part) = part_of(rest) else {
                    return Ok(None);
                };
                parts.push(part)?;
                return Ok(Some(parts));
            }
        }
    }
}

/// The parts after a worker, if any stand there; none where one has no `=`.
pub(crate) fn parts_behind(
    alloc: Global,
    text: Option<&[u8]>,
) -> Result<Option<Vec<Part<'_>>>, NoMemory>
    ensures { IfOk result (λ parts. option_map (λ v. as_parts v.items) parts
        ≡ parts_of (pieces_behind (option_map (λ t. t.now) text.entry))) }
{
    match text {
        None => Ok(Some(Vec::new(alloc))),
        Some(text) => parts_of(alloc, text),
    }
}

#[tactic(auto, unfolding(crate::specs::Parts::sticky_ignore))]
pub(crate) fn is_sticky_ignore(name: &[u8]) -> bool
    ensures { result ≡ bytes_eq name.now sticky_ignore }
{
    name == b"sticky_ignore".as_slice()
}

/// Whether the name is that of a list of members.
#[tactic(auto, unfolding(crate::specs::Parts::disabled, crate::specs::Parts::stopped))]
pub(crate) fn is_list_name(name: &[u8]) -> bool
    ensures { result ≡ (bytes_eq name.now disabled || bytes_eq name.now stopped) }
{
    name == b"disabled".as_slice() || name == b"stopped".as_slice()
}

#[tactic(auto, unfolding(crate::specs::Parts::reply_timeout))]
pub(crate) fn is_reply_timeout(name: &[u8]) -> bool
    ensures { result ≡ bytes_eq name.now reply_timeout }
{
    name == b"reply_timeout".as_slice()
}

/// The milliseconds that a text writes, at most a day.
fn millis_of(text: &[u8]) -> Option<u64>
    ensures { result ≡ millis_of text.now }
{
    number_in(0, 86_400_000, text)
}

/// Whether the value is one that its name takes.
fn is_good(alloc: Global, members: &[MemberConfig], part: Part<'_>) -> Result<bool, NoMemory>
    ensures { IfOk result (λ good. good ≡ is_good members.now (as_part part.entry)) }
{
    if is_sticky_ignore(part.name) {
        Ok(truth_of(part.value).is_some())
    } else if is_list_name(part.name) {
        lists_members(alloc, members, part.value)
    } else if is_reply_timeout(part.name) {
        Ok(millis_of(part.value).is_some())
    } else {
        Ok(true)
    }
}

fn are_good(alloc: Global, members: &[MemberConfig], parts: &[Part<'_>]) -> Result<bool, NoMemory>
    ensures { IfOk result (λ good. good ≡ list_all (is_good members.now) (as_parts parts.now)) }
{
    for part in parts {
        if !is_good(alloc, members, *part)? {
            return Ok(false);
        }
    }
    Ok(true)
}

/// The part's value, where it has this name.
fn value_of<'t>(name: &[u8], part: Part<'t>) -> Option<&'t [u8]>
    ensures { option_map (λ v. v.now) result ≡ value_of name.now (as_part part.entry) }
{
    if part.name == name {
        Some(part.value)
    } else {
        None
    }
}

/// The value of the last part of this name.
fn last_value<'t>(name: &[u8], parts: &[Part<'t>]) -> Option<&'t [u8]>
    ensures { option_map (λ v. v.now) result ≡ last_value name.now (as_parts parts.now) }
{
    let mut value = None;
    for part in parts {
        value = value_of(name, *part).or(value);
    }
    value
}

/// Whether a value is there and means yes.
fn is_yes(value: Option<&[u8]>) -> bool
    ensures { result ≡ is_yes (option_map (λ v. v.now) value.entry) }
{
    match value {
        Some(text) => truth_of(text).unwrap_or(false),
        None => false,
    }
}

/// The milliseconds of a value that is there.
fn millis_in(value: Option<&[u8]>) -> Option<u64>
    ensures { result ≡ option_and_then millis_of (option_map (λ v. v.now) value.entry) }
{
    millis_of(value?)
}

/// The set of the members that a value names.
fn set_in(alloc: Global, members: &[MemberConfig], value: Option<&[u8]>) -> Result<u64, NoMemory>
    requires { length members.now ≤ MAX_MEMBERS }
    ensures { IfOk result (λ set. set ≡ set_of members.now (names_in (option_map (λ v. v.now) value.entry))) }
{
    match value {
        Some(list) => listed_set(alloc, members, list),
        None => listed_set(alloc, members, b""),
    }
}

#[tactic(auto, unfolding(crate::specs::Parts::sticky_ignore, crate::specs::Parts::disabled, crate::specs::Parts::stopped, crate::specs::Parts::reply_timeout))]
fn terms_of(alloc: Global, members: &[MemberConfig], parts: &[Part<'_>]) -> Result<Terms, NoMemory>
    requires { length members.now ≤ MAX_MEMBERS }
    ensures { IfOk result (λ terms. terms ≡ terms_of members.now (as_parts parts.now)) }
{
    Ok(Terms {
        sticky_ignore: is_yes(last_value(b"sticky_ignore", parts)),
        disabled: set_in(alloc, members, last_value(b"disabled", parts))?,
        stopped: set_in(alloc, members, last_value(b"stopped", parts))?,
        reply_timeout: millis_in(last_value(b"reply_timeout", parts)),
    })
}

/// The terms that parts give; none where one has a value that its name doesn't take.
pub(crate) fn given_terms(
    alloc: Global,
    members: &[MemberConfig],
    parts: &[Part<'_>],
) -> Result<Option<Terms>, NoMemory>
    requires { length members.now ≤ MAX_MEMBERS }
    ensures { IfOk result (λ terms. terms ≡ given_terms members.now (as_parts parts.now)) }
{
    if are_good(alloc, members, parts)? {
        Ok(Some(terms_of(alloc, members, parts)?))
    } else {
        Ok(None)
    }
}
