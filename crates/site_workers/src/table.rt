//! The workers that have directives, each with the lines that give them.
ghost use Rattle.std.specs.Prelude.{◌≡◌, ◌<◌, ◌^◌, length, IfOk, OnOk, vec_len};
ghost use Rattle.site_config.specs.Directives.{worker_part};
ghost use Rattle.site_config.specs.Entries.{as_property, as_properties};
ghost use Rattle.site_workers.specs.Table.{with_name, names_with, IsNameOfGiven};
ghost use Rattle.site_workers.specs.Rows.{HasOwn, AreRows, rows_after};

use crate::name_table::NameTable;
use crate::row::Row;
use jk_io::NoMemory;
use site_config::PropertyLine;
use std::alloc::Global;

/// Adds the name, unless it is there.
fn add_name<'t>(names: &mut NameTable<'t>, name: &'t [u8]) -> Result<(), NoMemory>
    ensures { OnOk result (names.new ≡ with_name name.now names.old) }
{
    if names.find(name).is_none() {
        names.add(name)?;
    }
    Ok(())
}

/// Adds the name of the worker to which the line gives a directive.
fn add_worker<'t>(names: &mut NameTable<'t>, entry: &PropertyLine<'t>) -> Result<(), NoMemory>
    ensures { OnOk result (names.new ≡ names_with (worker_part entry.now.key.now) names.old) }
{
    match entry.worker() {
        Some((name, _)) => add_name(names, name),
        None => Ok(()),
    }
}

/// The names of the workers that have a directive.
pub(crate) fn names_of<'t>(
    alloc: Global,
    entries: &[PropertyLine<'t>],
) -> Result<NameTable<'t>, NoMemory>
    ensures { IfOk result (IsNameOfGiven (as_properties entries.now)) }
{
    let mut names = NameTable::new(alloc);
    for entry in entries {
        add_worker(&mut names, entry)?;
    }
    Ok(names)
}

/// Puts the line at this place into the row of its worker.
fn put(names: &NameTable<'_>, rows: &mut Vec<Row>, entry: &PropertyLine<'_>, place: u32)
    requires { vec_len rows.old ≡ length names.now }
    ensures { rows.new.items ≡ rows_after names.now (as_property entry.now) place rows.old.items }
{
    let Some((name, given)) = entry.worker() else {
        return;
    };
    let Some(number) = names.find(name) else {
        return;
    };
    let Some(directive) = given else {
        return;
    };
    let row = rows[number];
    rows[number] = row.with_place(directive, place);
}

/// Each worker's own lines.
pub(crate) fn rows_of(
    alloc: Global,
    names: &NameTable<'_>,
    entries: &[PropertyLine<'_>],
) -> Result<Vec<Row>, NoMemory>
    requires { length entries.now < 2 ^ 32 }
    ensures { IfOk result (λ v. AreRows (HasOwn (as_properties entries.now) (length entries.now)) names.now v.items) }
{
    let mut rows = vec![in alloc; Row::new(); names.len()]?;
    for (i, entry) in entries.iter().enumerate() {
        put(names, &mut rows, entry, i as u32);
    }
    Ok(rows)
}
