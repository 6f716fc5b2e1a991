//! The properties of a workers.properties.
ghost use Rattle.std.specs.Prelude.{◌≡◌, ◌≤◌, false, length, IfOk};
ghost use Rattle.site_config.specs.Entries.{as_property};
ghost use Rattle.site_config.specs.Refusals.{AnswersNumbered, AnswersWorkers};
ghost use Rattle.site_config.specs.Properties.{read_text};
ghost use Rattle.jk_io.specs.declared.whole_input.TheConstants.{MAX_INPUT_BYTES};

use crate::error::{PropsError, WorkersError};
use crate::first_pass::read_entries;
use crate::property::{Property, PropertyList};
use crate::property_line::PropertyLine;
use jk_io::{Bytes, ListOf, NoMemory};
use std::alloc::Global;

/// The lines of a text that give a key its value, or the first refusal. Names are judged, values aren't.
fn properties_of(alloc: Global, text: &[u8]) -> Result<PropertyList, WorkersError>
    requires { length text.now ≤ MAX_INPUT_BYTES }
    ensures { AnswersWorkers (λ properties. properties) result (read_text false text.now) }
{
    let entries = read_entries(alloc, false, text)?;
    let mut properties = Vec::with_capacity(alloc, entries.len())?;
    for entry in entries.iter() {
        properties.push(copied(alloc, entry)?)?;
    }
    Ok(ListOf::from_vec(properties))
}

/// The same, with the number 1 or 2 of the refusal.
pub fn read_properties(alloc: Global, text: &[u8]) -> Result<PropertyList, PropsError>
    requires { length text.now ≤ MAX_INPUT_BYTES }
    ensures { AnswersNumbered (λ properties. properties) result (read_text false text.now) }
{
    Ok(properties_of(alloc, text)?)
}

// The property of a line, with copies of its texts.
fn copied(alloc: Global, entry: &PropertyLine<'_>) -> Result<Property, NoMemory>
    ensures { IfOk result (λ property. property ≡ as_property entry.now) }
{
    Ok(Property {
        line: entry.line,
        key: Bytes::from_slice(alloc, entry.key)?,
        value: Bytes::from_slice(alloc, entry.value)?,
    })
}
