//! Which lines of a workers.properties a later line with the same key replaces.
ghost use Rattle.std.specs.Prelude.{◌≡◌, ◌∷◌, ◌++◌, [], List, IfOk, OnOk};
ghost use Rattle.site_config.specs.Entries.{as_properties, as_property};
ghost use Rattle.site_config.specs.declared.property.Property.{Property};
ghost use Rattle.site_reports.specs.Again.{IsLineTable, is_again, is_before, is_single, is_single_directive};

use jk_io::NoMemory;
use site_config::{Directive, PropertyLine};
use std::alloc::Global;
use std::collections::HashMap;

/// Keys, each with its last line.
pub(crate) type LineTable<'t> = HashMap<&'t [u8], u32>;

/// Whether it is a directive that is built, other than the lists of members, which are joined.
fn is_single_directive(directive: Option<Directive>) -> bool
    ensures { result ≡ is_single_directive directive }
{
    match directive {
        None => false,
        Some(directive) => directive != Directive::BalanceWorkers,
    }
}

/// Whether the last line of this line's key alone counts.
#[tactic(auto, using(crate::proofs::GivenLemmas::single_given))]
fn is_single(entry: &PropertyLine<'_>) -> bool
    ensures { result ≡ is_single entry.now.key.now }
{
    match entry.worker() {
        None => entry.is_maintain(),
        Some((_, directive)) => is_single_directive(directive),
    }
}

/// Puts a line into the table of those before it.
fn put_line<'t>(table: &mut LineTable<'t>, entry: &PropertyLine<'t>) -> Result<(), NoMemory>
    ensures { (ps : List Property) → IsLineTable table.old ps
        → OnOk result (IsLineTable table.new (ps ++ as_property entry.now ∷ [])) }
{
    if is_single(entry) {
        table.insert(entry.key, entry.line)?;
        Ok(())
    } else {
        Ok(())
    }
}

/// The last line of each key.
pub(crate) fn line_table<'t>(
    alloc: Global,
    lines: &[PropertyLine<'t>],
) -> Result<LineTable<'t>, NoMemory>
    ensures { IfOk result (λ table. IsLineTable table (as_properties lines.now)) }
{
    let mut table = HashMap::new(alloc);
    for line in lines {
        put_line(&mut table, line)?;
    }
    Ok(table)
}

fn is_before(line: u32, last: Option<u32>) -> bool
    ensures { result ≡ is_before line last }
{
    match last {
        None => false,
        Some(last) => line < last,
    }
}

/// Whether a later one of the table's lines gives the key again.
pub(crate) fn is_again(table: &LineTable<'_>, entry: &PropertyLine<'_>) -> bool
    ensures { (ps : List Property) → IsLineTable table.now ps → result ≡ is_again ps (as_property entry.now) }
{
    is_before(entry.line, table.get(entry.key).copied())
}
