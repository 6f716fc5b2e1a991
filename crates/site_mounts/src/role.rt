//! The right side of a rule: its worker, and the parts after it.
ghost use Rattle.std.specs.Prelude.{◌≡◌, ◌∷◌, IfOk, Ok};
ghost use Rattle.std.specs.Option.{option_map};
ghost use Rattle.site_mounts.specs.Lines.{exclusion_of, known, mount_of, mount_with, role_of, terms_at};
ghost use Rattle.site_mounts.specs.MapNotes.{mount_notes, role_notes};
ghost use Rattle.site_mounts.specs.PartViews.{as_parts};
ghost use Rattle.site_mounts.specs.Parts.{pieces_behind, pieces_of};
ghost use Rattle.site_mounts.specs.Refusals.{AnswersRules};

use crate::error::{MapReason, RulesError, refused};
use crate::map_note::{MapNote, exclusion_notes, worker_notes};
use crate::parts::{Part, given_terms, parts_behind};
use crate::rule::{Mount, Role};
use crate::workers::Workers;
use jk_io::{NoMemory, trim};
use lb_model::Terms;
use site_config::{Named, cut_at};
use std::alloc::Global;

/// What a right side says, and the notes on it.
#[derive(Drop)]
pub(crate) struct RightSide {
    pub(crate) role: Role,
    pub(crate) notes: Vec<MapNote>,
}

/// The listed worker of this name.
fn known(workers: &Workers<'_>, line: u32, name: &[u8]) -> Result<Named, RulesError>
    ensures { AnswersRules (λ worker. worker) result (known workers.now line name.now) }
{
    match workers.find(name) {
        Some(worker) => Ok(worker),
        None => Err(refused(line, MapReason::UnknownWorker)),
    }
}

fn exclusion_of(workers: &Workers<'_>, line: u32, name: &[u8]) -> Result<Role, RulesError>
    ensures { AnswersRules (λ role. role) result (exclusion_of workers.now line name.now) }
{
    if name == b"*".as_slice() {
        Ok(Role::Exclusion(None))
    } else {
        Ok(Role::Exclusion(Some(known(workers, line, name)?)))
    }
}

/// The terms of a mount at this worker; at a status worker parts have no effect.
fn terms_at(
    alloc: Global,
    workers: &Workers<'_>,
    worker: Named,
    parts: &[Part<'_>],
) -> Result<Option<Terms>, NoMemory>
    ensures { IfOk result (λ terms. terms ≡ terms_at workers.now worker (as_parts parts.now)) }
{
    match worker {
        Named::Balancer(place) => given_terms(alloc, workers.members(place), parts),
        Named::Status(_) => Ok(Some(Terms::none())),
    }
}

/// A mount at this worker, with the parts after it.
fn mount_at(
    alloc: Global,
    workers: &Workers<'_>,
    line: u32,
    worker: Named,
    text: Option<&[u8]>,
) -> Result<RightSide, RulesError>
    ensures role { AnswersRules (λ right. right.role) result (mount_with workers.now line
        (pieces_behind (option_map (λ t. t.now) text.entry)) (Ok worker)) }
    ensures notes { IfOk result (λ right. right.notes.items ≡ mount_notes line
        (pieces_behind (option_map (λ t. t.now) text.entry)) (Ok worker)) }
{
    let Some(parts) = parts_behind(alloc, text)? else {
        return Err(refused(line, MapReason::BadExtension));
    };
    let Some(terms) = terms_at(alloc, workers, worker, parts.as_slice())? else {
        return Err(refused(line, MapReason::BadExtension));
    };
    let role = Role::Mount(Mount { worker, terms });
    let notes = worker_notes(alloc, line, worker, parts.as_slice())?;
    Ok(RightSide { role, notes })
}

fn mount_of(
    alloc: Global,
    workers: &Workers<'_>,
    line: u32,
    name: &[u8],
    text: Option<&[u8]>,
) -> Result<RightSide, RulesError>
    ensures role { AnswersRules (λ right. right.role) result (mount_of workers.now line name.now
        (pieces_behind (option_map (λ t. t.now) text.entry))) }
    ensures notes { IfOk result (λ right. right.notes.items ≡ mount_notes line
        (pieces_behind (option_map (λ t. t.now) text.entry)) (known workers.now line name.now)) }
{
    let worker = known(workers, line, name)?;
    mount_at(alloc, workers, line, worker, text)
}

/// The worker's text, and what follows the first `;`.
fn split_parts(text: &[u8]) -> (&[u8], Option<&[u8]>)
    ensures { pieces_of text.now ≡ result.0.now ∷ pieces_behind (option_map (λ t. t.now) result.1) }
{
    match cut_at(text, b';') {
        Some((name, parts)) => (name, Some(parts)),
        None => (text, None),
    }
}

/// What a rule's right side says. In an exclusion, what follows a `;` is ignored.
pub(crate) fn role_of(
    alloc: Global,
    workers: &Workers<'_>,
    line: u32,
    exclusion: bool,
    text: &[u8],
) -> Result<RightSide, RulesError>
    ensures role { AnswersRules (λ right. right.role) result (role_of workers.now line exclusion text.now) }
    ensures notes { IfOk result (λ right. right.notes.items
        ≡ role_notes workers.now line exclusion (pieces_of text.now)) }
{
    let (name, parts) = split_parts(text);
    if exclusion {
        let role = exclusion_of(workers, line, trim(name))?;
        let notes = exclusion_notes(alloc, line, parts)?;
        Ok(RightSide { role, notes })
    } else {
        mount_of(alloc, workers, line, trim(name), parts)
    }
}
