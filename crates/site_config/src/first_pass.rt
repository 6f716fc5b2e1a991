//! The first pass: each line by itself, from the top.
ghost use Rattle.std.specs.Prelude.{◌≡◌, ◌≤◌, length, map, vec_len, IfOk};
ghost use Rattle.std.specs.Option.{option_map, option_to_list};
ghost use Rattle.std.specs.Result.{result_map_both};
ghost use Rattle.site_config.specs.Entries.{as_property, as_properties};
ghost use Rattle.site_config.specs.Refusals.{AnswersWorkers};
ghost use Rattle.site_config.specs.Properties.{is_silent, judged, property_of, said, read_text, fault_of};
ghost use Rattle.site_config.specs.Cut.{cut_at};
ghost use Rattle.jk_io.specs.declared.whole_input.TheConstants.{MAX_INPUT_BYTES};

use crate::cut::cut_at;
use crate::error::{PropsReason, PropsRefusal, WorkersError, refusal};
use crate::judge::fault_of;
use crate::lines::{first_line, without_mark};
use crate::property::Fault;
use crate::property_line::PropertyLine;
use jk_io::trim;
use std::alloc::Global;

/// Whether a trimmed line is blank or a comment.
fn is_silent(text: &[u8]) -> bool
    ensures { result ≡ is_silent text.now }
{
    text.is_empty() || text[0] == b'#'
}

/// The property, unless its fault is refused; that of a value is refused only where `values` is on.
fn judged<'t>(
    values: bool,
    entry: PropertyLine<'t>,
    fault: Option<Fault>,
) -> Result<Option<PropertyLine<'t>>, PropsRefusal>
    ensures { result_map_both (option_map as_property) (λ r. r) result ≡ judged values (as_property entry.entry) fault }
{
    let line = entry.line;
    match fault {
        None => Ok(Some(entry)),
        Some(Fault::Name) => Err(refusal(line, PropsReason::BadName)),
        Some(Fault::Period) if values => Err(refusal(line, PropsReason::BadPeriod)),
        Some(Fault::Value(at)) if values => Err(refusal(line, PropsReason::BadValue(at))),
        Some(_) => Ok(Some(entry)),
    }
}

/// What a trimmed line says; a bad value is refused where `values` is on.
pub fn said(values: bool, line: u32, text: &[u8]) -> Result<Option<PropertyLine<'_>>, PropsRefusal>
    ensures { result_map_both (option_map as_property) (λ r. r) result ≡ said values line text.now }
{
    if is_silent(text) {
        return Ok(None);
    }
    match cut_at(text, b'=') {
        None => Err(refusal(line, PropsReason::NoEquals)),
        Some((key, value)) => {
            let entry = PropertyLine::new(line, trim(key), trim(value));
            judged(values, entry, fault_of(&entry))
        }
    }
}

/// The properties of a text, or the first line that is refused. Bad values are refused where `values` is on.
pub fn read_entries(
    alloc: Global,
    values: bool,
    text: &[u8],
) -> Result<Vec<PropertyLine<'_>>, WorkersError>
    requires { length text.now ≤ MAX_INPUT_BYTES }
    ensures entries { AnswersWorkers (λ v. as_properties v.items) result (read_text values text.now) }
    ensures few { IfOk result (λ v. vec_len v ≤ length text.now) }
{
    let mut entries = Vec::new(alloc);
    let mut number: u32 = 0;
    let mut rest = without_mark(text);
    while let Some((line, behind)) = first_line(rest) {
        number += 1;
        if let Some(entry) = said(values, number, trim(line))? {
            entries.push(entry)?;
        }
        rest = behind;
    }
    Ok(entries)
}
