//! `check_journal`: a text, checked once over from its front.
ghost use Rattle.std.specs.Prelude.{◌≤◌, length};
ghost use Rattle.journal_verdict.specs.Verdicts.{IsChecked};
ghost use Rattle.jk_io.specs.declared.whole_input.TheConstants.{MAX_INPUT_BYTES};

use crate::checker::Checker;
use crate::ruling::Verdict;
use journal_text::TextError;
use play_script::Parts;
use std::alloc::Global;

/// Whether a journal's text is good: each entry follows from those before it by its segment's rules, and each later
/// opening is where the former segment ended, under the same name. Else the first line that differs. A line that can't
/// be read goes before all that.
pub fn check_journal(alloc: Global, text: &[u8]) -> Result<Verdict, TextError>
    requires { length text.now ≤ MAX_INPUT_BYTES }
    ensures { IsChecked text.now result }
{
    let mut lines = Parts::of(b'\n', text);
    let mut line = match lines.next() {
        Some(first) => first,
        None => return Err(TextError::Unreadable { line: 1 }),
    };
    let mut checker = Checker::new(alloc);
    'lines: while let Some(next) = lines.next() {
        checker = checker.take(alloc, line)?;
        line = next;
    }
    checker.end(line)
}
