//! Remarks on the files of a site that a command read.
ghost use Rattle.std.specs.Prelude.{◌≡◌};
ghost use Rattle.std.specs.Option.{option_copied};
ghost use Rattle.remarks.specs.Said.{SaysEffects, SaysFound, SaysPlaced, first_name, site_place};
ghost use Rattle.remarks.specs.Added.{AddsSome};

use crate::read_file::ReadFile;
use crate::remark_out::RemarkOut;
use crate::remarks::site_remarks;
use crate::site_file::SiteNames;
use jk_cli::CommandName;
use jk_io::{IoError, Sink};
use site_reports::SiteFound;
use std::alloc::Global;

/// Where a command's WORKERS stands among its files, and whether what has no effect is told.
#[derive(Clone, Copy)]
pub(crate) struct SitePlace {
    pub(crate) place: usize,
    pub(crate) effects: bool,
}

pub(crate) fn site_place(command: Option<CommandName>) -> Option<SitePlace>
    ensures { result ≡ site_place command }
{
    match command {
        Some(CommandName::Config) => Some(SitePlace {
            place: 0,
            effects: true,
        }),
        Some(CommandName::Match | CommandName::Serve) => Some(SitePlace {
            place: 0,
            effects: false,
        }),
        Some(CommandName::Dry | CommandName::Log) => Some(SitePlace {
            place: 2,
            effects: false,
        }),
        _ => None,
    }
}

/// The name of the file that was read first; empty where none was.
fn first_name(reads: &[ReadFile]) -> &[u8]
    ensures { result.now ≡ first_name reads.now }
{
    match reads {
        [] => &[],
        [read, ..] => read.name.as_slice(),
    }
}

/// Adds what is told of a site whose WORKERS was read first, and its MAP, if any, after it.
fn put_site<O: Sink + Drop>(
    alloc: Global,
    out: &mut RemarkOut<O>,
    reads: &[ReadFile],
    found: &SiteFound,
    effects: bool,
) -> Result<(), IoError>
    ensures { AddsSome result out.old out.new (SaysFound effects found.now reads.now) }
{
    let [first, rest @ ..] = reads else {
        return Ok(());
    };
    let names = SiteNames {
        workers: first.name.as_slice(),
        map: first_name(rest),
    };
    site_remarks(alloc, out, &names, found, effects)
}

/// Adds what is told of what was found of the site at this place among the files.
pub(crate) fn put_placed<O: Sink + Drop>(
    alloc: Global,
    out: &mut RemarkOut<O>,
    reads: &[ReadFile],
    site: Option<&SiteFound>,
    at: Option<SitePlace>,
) -> Result<(), IoError>
    ensures { AddsSome result out.old out.new (SaysPlaced at (option_copied site.entry) reads.now) }
{
    let Some(at) = at else {
        return Ok(());
    };
    let Some(found) = site else {
        return Ok(());
    };
    if reads.len() < at.place {
        return Ok(());
    }
    put_site(alloc, out, &reads[at.place..], found, at.effects)
}

/// Adds what of the files of a command that was done has no effect.
pub(crate) fn put_effects<O: Sink + Drop>(
    alloc: Global,
    out: &mut RemarkOut<O>,
    command: Option<CommandName>,
    reads: &[ReadFile],
    site: Option<&SiteFound>,
) -> Result<(), IoError>
    ensures { AddsSome result out.old out.new (SaysEffects command (option_copied site.entry) reads.now) }
{
    match site_place(command) {
        None => Ok(()),
        Some(at) => {
            if at.effects {
                put_placed(alloc, out, reads, site, Some(at))
            } else {
                Ok(())
            }
        }
    }
}
