//! `check`: the verdict on a journal's text, printed.
ghost use Rattle.std.specs.Prelude.{◌≡◌, ◌≤◌, length, IfOk};
ghost use Rattle.journal_verdict.specs.Told.{verdict_text};
ghost use Rattle.plain_commands.specs.Checked.{ChecksText, status_for, unreadable_text};
ghost use Rattle.plain_commands.specs.Endings.{status_of};
ghost use Rattle.plain_commands.specs.declared.play.Ending.TheVariants as Ends;
ghost use Rattle.jk_io.specs.declared.whole_input.TheConstants.{MAX_INPUT_BYTES};

use crate::play::{Ending, Output};
use jk_io::{Bytes, NoMemory, put_decimal};
use journal_text::TextError;
use journal_verdict::{Verdict, check_journal, put_verdict};
use std::alloc::Global;

fn ending_of(verdict: &Verdict) -> Ending
    ensures { status_of result ≡ status_for verdict.now }
{
    match verdict {
        Verdict::Good { .. } => Ending::Done,
        Verdict::Bad { .. } => Ending::Bad,
    }
}

fn told(alloc: Global, verdict: &Verdict) -> Result<Output, NoMemory>
    ensures text { IfOk result (λ o. o.text ≡ verdict_text verdict.now) }
    ensures status { IfOk result (λ o. status_of o.ending ≡ status_for verdict.now) }
{
    let mut text = Bytes::new(alloc);
    put_verdict(&mut text, verdict)?;
    Ok(Output {
        text,
        ending: ending_of(verdict),
    })
}

/// The first line that can't be read, and its status.
pub(crate) fn unreadable(alloc: Global, line: u64) -> Result<Output, NoMemory>
    ensures text { IfOk result (λ o. o.text ≡ unreadable_text line) }
    ensures ending { IfOk result (λ o. o.ending ≡ Ends.Refused) }
{
    let mut text = Bytes::new(alloc);
    text.extend(b"line ")?;
    put_decimal(&mut text, u128::from(line))?;
    text.extend(b": unreadable\n")?;
    Ok(Output {
        text,
        ending: Ending::Refused,
    })
}

/// What the check of a text prints.
pub(crate) fn check(alloc: Global, text: &[u8]) -> Result<Output, NoMemory>
    requires short { length text.now ≤ MAX_INPUT_BYTES }
    ensures { IfOk result (λ o. ChecksText text.now o.text (status_of o.ending)) }
{
    match check_journal(alloc, text) {
        Ok(verdict) => told(alloc, &verdict),
        Err(TextError::Unreadable { line }) => unreadable(alloc, u64::from(line)),
        Err(TextError::NoMemory) => Err(NoMemory),
    }
}
