//! The opening that goes on where a run ended, line by line.
ghost use Rattle.std.specs.Prelude.{◌≡◌, ◌<◌, ℕ, [], IfOk, IfSome, slice_index_or};
ghost use Rattle.lb_model.specs.Validity.{IsOpening};
ghost use Rattle.journal_verdict.specs.Verdicts.{opening_texts};
ghost use Rattle.journal_verdict.specs.Machines.{Compares};

use crate::joining::{count_lines, line_at};
use crate::run::Run;
use jk_io::{Bytes, NoMemory};
use lb_model::{Opening, Segment};
use std::alloc::Global;

/// The line of an opening at this place, from 0; empty past its end.
fn line_or_none(alloc: Global, name: &[u8], opening: &Opening, at: usize) -> Result<Bytes, NoMemory>
    requires { IsOpening opening.now }
    ensures { (v : ℕ) → IfOk result (λ line. line ≡ slice_index_or (opening_texts v name.now opening.now) at []) }
{
    if at < count_lines(opening) {
        return line_at(alloc, name, opening, at);
    }
    Ok(Bytes::new(alloc))
}

/// The line at this place, from 0, of an opening that goes on where the run's Book is.
fn expected_line(alloc: Global, run: &Run, at: u32) -> Result<Bytes, NoMemory>
    requires { IsOpening run.now.book.opening }
    ensures { (v : ℕ) → IfOk result (λ line. line ≡ slice_index_or (opening_texts v run.now.name run.now.book.opening) at []) }
{
    let Segment { opening, .. } = run.book.segment()?;
    line_or_none(alloc, run.name.as_slice(), &opening, at as usize)
}

/// The line that ought to stand there, where another one does. `taken` lines of the opening stand before this one, the rules'
/// line among them; after none, and where no run is known, any line may stand.
pub(crate) fn difference(
    alloc: Global,
    run: &Option<Run>,
    taken: u32,
    text: &[u8],
) -> Result<Option<Bytes>, NoMemory>
    requires { IfSome run.now (λ r. IsOpening r.book.opening) }
    ensures { IfOk result (Compares run.now taken text.now) }
{
    let Some(run) = run else {
        return Ok(None);
    };
    if taken == 0 {
        return Ok(None);
    }
    let expected = expected_line(alloc, run, taken - 1)?;
    if text == expected.as_slice() {
        return Ok(None);
    }
    Ok(Some(expected))
}
