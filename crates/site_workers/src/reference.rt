//! References: a worker's directives hold for another that has none of its own.
ghost use Rattle.std.specs.Prelude.{◌≡◌, ◌<◌, ℕ, length, map, reverse, IfOk, IfErr, OnOk, true, if◌then◌else◌, slice_index_or, Some, None};
ghost use Rattle.std.specs.Option.{option_map};
ghost use Rattle.site_config.specs.Entries.{as_property, as_properties};
ghost use Rattle.site_workers.specs.Given.{is_given, or_else, target_name};
ghost use Rattle.site_workers.specs.Rows.{adjusted};
ghost use Rattle.site_workers.specs.Tables.{AreAtRest, lines_in};
ghost use Rattle.site_workers.specs.Ways.{IsWay, IsBrokenWalk, IsSettled, Inherits, is_open, passed_row, row_of_target};
ghost use Rattle.site_config.specs.declared.directive.TheConstants.{DIRECTIVE_COUNT};

use crate::given::Given;
use crate::name_table::NameTable;
use crate::row::{Progress, Row, picked};
use site_config::{Directive, PropertyLine, PropsReason, WorkersError, behind_worker, refused};
use std::alloc::Global;

/// The worker that a reference names.
fn target_of<'t>(entry: &PropertyLine<'t>) -> &'t [u8]
    ensures { result.now ≡ target_name (as_property entry.now) }
{
    match behind_worker(entry.value) {
        Some(name) => name,
        None => b"",
    }
}

/// The row of the worker that the row's reference names.
fn target_row(
    entries: &[PropertyLine<'_>],
    names: &NameTable<'_>,
    rows: &[Row],
    row: &Row,
) -> Option<Row>
    ensures { result ≡ row_of_target (as_properties entries.now) names.now rows.now row.now }
{
    let entry = picked(entries, row, Directive::Reference)?;
    let number = names.find(target_of(&entry))?;
    rows.get(number).copied()
}

fn or_else(own: Option<u32>, other: Option<u32>) -> Option<u32>
    ensures { result ≡ or_else own other }
{
    match own {
        None => other,
        Some(place) => Some(place),
    }
}

/// The places of a row, and those of another where it has none.
fn inherited(own: &[Option<u32>; 36], from: &[Option<u32>; 36]) -> [Option<u32>; 36]
    ensures wide { length result ≡ DIRECTIVE_COUNT }
    ensures each { (k : ℕ) → k < DIRECTIVE_COUNT → slice_index_or result k None
        ≡ or_else (slice_index_or own.now k None) (slice_index_or from.now k None) }
{
    let mut places = *own;
    for (i, place) in from.iter().enumerate() {
        places[i] = or_else(places[i], *place);
    }
    places
}

/// The row with the lines of another where it has none, whole.
fn whole_row(row: &Row, from: Option<Row>) -> Row
    ensures { Inherits row.now from result }
{
    let places = match from {
        None => row.places,
        Some(from) => inherited(&row.places, &from.places),
    };
    Row {
        places,
        progress: Progress::Whole,
    }
}

/// Notes that a walk has passed the worker of this number.
fn pass(rows: &mut Vec<Row>, number: usize)
    requires { number < length rows.old.items }
    ensures { rows.new.items ≡ adjusted passed_row rows.old.items number }
{
    let row = rows[number];
    rows[number] = row.passed();
}

/// The worker that a reference names, where it has a directive and wasn't passed.
fn next_on_way<'t>(
    names: &NameTable<'_>,
    rows: &[Row],
    entry: &PropertyLine<'t>,
) -> Option<&'t [u8]>
    ensures { option_map (λ t. t.now) result ≡ (if is_open names.now rows.now (target_name (as_property entry.now))
        then Some (target_name (as_property entry.now)) else None) }
{
    let target = target_of(entry);
    let number = names.find(target)?;
    match rows.get(number) {
        Some(row) if row.progress == Progress::Passed => None,
        _ => Some(target),
    }
}

/// Walks along references from a worker, up to one without a reference, or one whose row is whole. The answer is the workers
/// that it passed, in order, or the line of the first reference to one without a directive or to one passed before.
fn walk<'t>(
    alloc: Global,
    given: &Given<'_, 't>,
    rows: &mut Vec<Row>,
    start: &'t [u8],
) -> Result<Vec<&'t [u8]>, WorkersError>
    requires given { is_given (lines_in given.now) start.now ≡ true }
    requires rows { AreAtRest given.now rows.old.items }
    ensures way { IfOk result (λ path. IsWay (lines_in given.now) start.now given.now.names.now rows.new.items
        (reverse (map (λ n. n.now) path.items))) }
    ensures broken { IfErr result (IsBrokenWalk (lines_in given.now) start.now) }
{
    let mut path = Vec::new(alloc);
    let mut at = start;
    loop {
        let number = given.names.find(at).unwrap();
        let row = rows[number];
        if row.is_whole() {
            return Ok(path);
        }
        pass(rows, number);
        path.push(at)?;
        match picked(given.entries, &row, Directive::Reference) {
            None => return Ok(path),
            Some(entry) => match next_on_way(given.names, rows.as_slice(), &entry) {
                Some(next) => at = next,
                None => return Err(refused(entry.line, PropsReason::BadReference)),
            },
        }
    }
}

/// Makes the row of a worker whole, and those of the workers to which its references lead.
pub(crate) fn resolve<'t>(
    alloc: Global,
    given: &Given<'_, 't>,
    rows: &mut Vec<Row>,
    start: &'t [u8],
) -> Result<(), WorkersError>
    requires given { is_given (lines_in given.now) start.now ≡ true }
    requires rows { AreAtRest given.now rows.old.items }
    ensures rows { OnOk result (AreAtRest given.now rows.new.items) }
    ensures settled { OnOk result (IsSettled given.now.names.now rows.new.items start.now) }
    ensures broken { IfErr result (IsBrokenWalk (lines_in given.now) start.now) }
{
    let mut path = walk(alloc, given, rows, start)?;
    while let Some(name) = path.pop() {
        let number = given.names.find(name).unwrap();
        let row = rows[number];
        let from = target_row(given.entries, given.names, rows.as_slice(), &row);
        rows[number] = whole_row(&row, from);
    }
    Ok(())
}
