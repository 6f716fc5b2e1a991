//! A text, read as segments.
ghost use Rattle.std.specs.Prelude.{◌≤◌, length};
ghost use Rattle.journal_text.specs.Reading.{ReadsText, TellsOutcome};
ghost use Rattle.jk_io.specs.declared.whole_input.TheConstants.{MAX_INPUT_BYTES};

use crate::counted::CountedList;
use crate::reader::Reader;
use crate::text_error::TextError;
use play_script::Parts;
use std::alloc::Global;

/// The segments of a text, each with the count of its last line.
pub(crate) fn read_counted(alloc: Global, text: &[u8]) -> Result<CountedList, TextError>
    requires { length text.now ≤ MAX_INPUT_BYTES }
    ensures { TellsOutcome result (ReadsText text.now) }
{
    let mut lines = Parts::of(b'\n', text);
    let mut line = match lines.next() {
        Some(first) => first,
        None => return Err(TextError::Unreadable { line: 1 }),
    };
    let mut reader = Reader::new(alloc);
    let mut number: u32 = 1;
    'lines: while let Some(next) = lines.next() {
        reader = reader.take_line(alloc, line, number)?;
        number += 1;
        line = next;
    }
    match reader.end(line) {
        Some(done) => Ok(done),
        None => Err(TextError::Unreadable { line: number }),
    }
}
