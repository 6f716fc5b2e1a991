//! Notes on what follows a rule's worker and has no effect.
ghost use Rattle.std.specs.Prelude.{◌≡◌, ◌∷◌, ◌++◌, [], IfOk, OnOk};
ghost use Rattle.std.specs.List.{flat_map, list_all};
ghost use Rattle.std.specs.Option.{option_map};
ghost use Rattle.site_config.specs.Cut.{is_separator};
ghost use Rattle.site_mounts.specs.MapNotes.{exclusion_notes, is_part_name, lists_nobody, note, part_notes, worker_notes};
ghost use Rattle.site_mounts.specs.PartViews.{as_part, as_parts};
ghost use Rattle.site_mounts.specs.Parts.{pieces_behind};

use crate::parts::{Part, is_list_name, is_reply_timeout, is_sticky_ignore};
use crate::uri_map::UriMap;
use jk_io::{Bytes, ListOf, NoMemory};
use site_config::{Named, is_separator};
use std::alloc::Global;

/// Why what follows a rule's worker has no effect.
#[derive(Drop)]
pub enum NoPartEffect {
    /// The rule is an exclusion.
    Exclusion,
    /// The worker is of type status.
    StatusWorker,
    /// The part of this name is a list of members, and lists nobody.
    ListsNobody(Bytes),
    /// A part of this name isn't supported.
    Unsupported(Bytes),
}

/// A note on what follows the worker of a rule.
#[derive(Drop)]
pub struct MapNote {
    /// From 1.
    pub line: u32,
    pub why: NoPartEffect,
}

/// A map that is accepted, and what of it has no effect, in the order of its lines.
#[derive(Drop)]
pub struct NotedMap {
    pub map: UriMap,
    pub notes: ListOf<MapNote>,
}

/// Whether a part of this name has an effect.
fn is_part_name(name: &[u8]) -> bool
    ensures { result ≡ is_part_name name.now }
{
    is_sticky_ignore(name) || (is_list_name(name) || is_reply_timeout(name))
}

fn is_blank(text: &[u8]) -> bool
    ensures { result ≡ list_all is_separator text.now }
{
    text.iter().all(|b| is_separator(*b))
}

fn lists_nobody(part: Part<'_>) -> bool
    ensures { result ≡ lists_nobody (as_part part.entry) }
{
    is_list_name(part.name) && is_blank(part.value)
}

/// Adds the note on a part, if it has no effect.
fn push_part_note(
    alloc: Global,
    out: &mut Vec<MapNote>,
    line: u32,
    part: Part<'_>,
) -> Result<(), NoMemory>
    ensures { OnOk result (out.new.items ≡ out.old.items ++ part_notes line (as_part part.entry)) }
{
    if lists_nobody(part) {
        let why = NoPartEffect::ListsNobody(Bytes::from_slice(alloc, part.name)?);
        out.push(MapNote { line, why })?;
    } else if !is_part_name(part.name) {
        let why = NoPartEffect::Unsupported(Bytes::from_slice(alloc, part.name)?);
        out.push(MapNote { line, why })?;
    }
    Ok(())
}

/// The notes on the parts at a balancer.
fn balancer_notes(alloc: Global, line: u32, parts: &[Part<'_>]) -> Result<Vec<MapNote>, NoMemory>
    ensures { IfOk result (λ notes. notes.items ≡ flat_map (part_notes line) (as_parts parts.now)) }
{
    let mut notes = Vec::new(alloc);
    for part in parts {
        push_part_note(alloc, &mut notes, line, *part)?;
    }
    Ok(notes)
}

/// One note alone.
fn one_note(alloc: Global, line: u32, why: NoPartEffect) -> Result<Vec<MapNote>, NoMemory>
    ensures { IfOk result (λ notes. notes.items ≡ note line why ∷ []) }
{
    let mut notes = Vec::new(alloc);
    notes.push(MapNote { line, why })?;
    Ok(notes)
}

/// The notes on the parts at this worker.
pub(crate) fn worker_notes(
    alloc: Global,
    line: u32,
    worker: Named,
    parts: &[Part<'_>],
) -> Result<Vec<MapNote>, NoMemory>
    ensures { IfOk result (λ notes. notes.items ≡ worker_notes line worker (as_parts parts.now)) }
{
    match worker {
        Named::Balancer(_) => balancer_notes(alloc, line, parts),
        Named::Status(_) => {
            if parts.is_empty() {
                Ok(Vec::new(alloc))
            } else {
                one_note(alloc, line, NoPartEffect::StatusWorker)
            }
        }
    }
}

/// The notes on what follows the worker of an exclusion.
#[tactic(auto, using(crate::proofs::NoteLemmas::exclusion_noted))]
pub(crate) fn exclusion_notes(
    alloc: Global,
    line: u32,
    text: Option<&[u8]>,
) -> Result<Vec<MapNote>, NoMemory>
    ensures { IfOk result (λ notes. notes.items
        ≡ exclusion_notes line (pieces_behind (option_map (λ t. t.now) text.entry))) }
{
    match text {
        None => Ok(Vec::new(alloc)),
        Some(_) => one_note(alloc, line, NoPartEffect::Exclusion),
    }
}
