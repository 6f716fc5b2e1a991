//! The lists of workers: `worker.list` and `balance_workers`.
ghost use Rattle.std.specs.Prelude.{◌≡◌, ◌++◌, IfOk, OnOk};
ghost use Rattle.site_config.specs.Entries.{as_property, as_properties};
ghost use Rattle.site_workers.specs.Lists.{firsts, listings_of, joined, is_list_line, site_list};
ghost use Rattle.site_workers.specs.Listings.{as_listings};

use crate::firsts::firsts;
use jk_io::{ListOf, NoMemory};
use site_config::{PropertyLine, push_words};
use std::alloc::Global;

/// A name of a list, and the line on which it stands.
#[derive(Clone, Copy)]
pub(crate) struct Listing<'t> {
    pub(crate) name: &'t [u8],
    pub(crate) line: u32,
}

/// Adds the names of a line.
pub(crate) fn push_listings<'t>(
    alloc: Global,
    out: &mut ListOf<Listing<'t>>,
    entry: &PropertyLine<'t>,
) -> Result<(), NoMemory>
    ensures { OnOk result (as_listings out.new ≡ as_listings out.old ++ listings_of (as_property entry.now)) }
{
    let mut words = Vec::new(alloc);
    push_words(&mut words, entry.value)?;
    for word in words.iter() {
        out.push(Listing {
            name: *word,
            line: entry.line,
        })?;
    }
    Ok(())
}

/// The names of `worker.list`, one line after another.
fn site_list<'t>(
    alloc: Global,
    entries: &[PropertyLine<'t>],
) -> Result<ListOf<Listing<'t>>, NoMemory>
    ensures { IfOk result (λ l. as_listings l ≡ joined is_list_line (as_properties entries.now)) }
{
    let mut out = ListOf::new(alloc);
    for entry in entries {
        if entry.is_list() {
            push_listings(alloc, &mut out, entry)?;
        }
    }
    Ok(out)
}

/// The names of `worker.list`, each where it stands first.
pub(crate) fn listed<'t>(
    alloc: Global,
    entries: &[PropertyLine<'t>],
) -> Result<Vec<Listing<'t>>, NoMemory>
    ensures { IfOk result (λ v. as_listings v.items ≡ firsts (site_list (as_properties entries.now))) }
{
    firsts(alloc, site_list(alloc, entries)?.as_slice())
}
