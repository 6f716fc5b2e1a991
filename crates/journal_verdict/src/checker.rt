//! The check of a text under way: line by line, with one segment and one Book at a time.
use crate::reached::{Check, Reached};
use crate::ruling::Verdict;
use crate::segment::take_segment;
use jk_io::NoMemory;
use journal_text::{Counted, Reader, TextError};
use std::alloc::Global;

impl Check {
    ghost use Rattle.std.specs.Prelude.{◌≡◌, IfOk};
    ghost use Rattle.journal_verdict.specs.Checks.{HasCountRoom, Leads, at_first, verdict_of};

    fn new() -> Check
        ensures { result ≡ Check.Good at_first }
    {
        Check::Good(Reached {
            former: None,
            lines: 0,
            entries: 0,
        })
    }

    // After a further segment.
    fn take(self, alloc: Global, segment: Counted) -> Result<Check, NoMemory>
        requires { HasCountRoom self segment }
        ensures { IfOk result (Leads self segment) }
    {
        match self {
            Check::Good(reached) => take_segment(alloc, reached, segment),
            Check::Bad(verdict) => Ok(Check::Bad(verdict)),
        }
    }

    // The error after which nobody asks what the text comes to.
    fn after(self, error: TextError) -> TextError
        ensures { result ≡ error }
    {
        error
    }

    fn verdict(self) -> Verdict
        ensures { result ≡ verdict_of self }
    {
        match self {
            Check::Good(Reached { entries, .. }) => Verdict::Good { entries },
            Check::Bad(verdict) => verdict,
        }
    }
}

/// The check of a text, as far as its lines were taken.
#[derive(Drop)]
pub(crate) struct Checker {
    /// It holds no whole segment.
    reader: Reader,
    check: Check,
    /// Whether a segment was read whole.
    some: bool,
    /// The number of the line that comes next.
    number: u32,
}

impl Checker {
    ghost use Rattle.std.specs.Prelude.{◌≡◌, ◌≤◌, ◌+◌, ◌∷◌, [], List, length, IfErr, IfOk};
    ghost use Rattle.journal_text.specs.Reading.{at_start};
    ghost use Rattle.journal_text.specs.declared.counted.Counted.{Counted};
    ghost use Rattle.journal_verdict.specs.Checkers.{Advances, CheckEndsBy, CheckGoesOn, HasTaken, RefusesLine, may_end};
    ghost use Rattle.journal_verdict.specs.Checks.{HasCountRoom, verdict_of};
    ghost use Rattle.jk_io.specs.declared.whole_input.TheConstants.{MAX_INPUT_BYTES};

    /// Before the first line.
    pub(crate) fn new(alloc: Global) -> Checker
        ensures taken { HasTaken result [] }
        ensures reader { result.reader ≡ at_start }
        ensures number { result.number ≡ 1 }
    {
        Checker {
            reader: Reader::new(alloc),
            check: Check::new(),
            some: false,
            number: 1,
        }
    }

    // A line was taken: judges the segment, if that was its last line.
    fn go_on(
        reader: Reader,
        check: Check,
        some: bool,
        alloc: Global,
        number: u32,
    ) -> Result<Checker, NoMemory>
        requires few { length reader.done ≤ 1 }
        requires room { (c : Counted) → reader.done ≡ c ∷ [] → HasCountRoom check c }
        ensures { IfOk result (CheckGoesOn reader check some number) }
    {
        let mut reader = reader;
        let Some(segment) = reader.take_segment() else {
            return Ok(Checker {
                reader,
                check,
                some,
                number,
            });
        };
        Ok(Checker {
            reader,
            check: check.take(alloc, segment)?,
            some: true,
            number,
        })
    }

    /// Takes the text of a line, without its LF.
    pub(crate) fn take(self, alloc: Global, text: &[u8]) -> Result<Checker, TextError>
        requires taken { (done : List Counted) × HasTaken self done }
        requires few { self.number ≤ MAX_INPUT_BYTES + 2 }
        ensures ok { IfOk result (Advances self text.now) }
        ensures number { IfOk result (λ new. new.number ≡ self.number + 1) }
        ensures err { IfErr result (RefusesLine self text.now) }
    {
        let Checker {
            reader,
            check,
            some,
            number,
        } = self;
        match reader.take_line(alloc, text, number) {
            Ok(reader) => Ok(Checker::go_on(reader, check, some, alloc, number + 1)?),
            Err(error) => Err(check.after(error)),
        }
    }

    fn verdict(self) -> Verdict
        ensures { result ≡ verdict_of self.check }
    {
        self.check.verdict()
    }

    // Whether a text may end here that has a segment; `last` is what stands after its last LF.
    fn may_end(&self, last: &[u8]) -> bool
        ensures { result ≡ may_end self.now last.now }
    {
        self.some && self.reader.is_over(last)
    }

    /// The verdict, where a text may end here; `last` is what stands after its last LF.
    pub(crate) fn end(self, last: &[u8]) -> Result<Verdict, TextError>
        ensures { (done : List Counted) → HasTaken self done → CheckEndsBy done self last.now result }
    {
        let whole = self.may_end(last);
        let number = self.number;
        let said = self.verdict();
        if whole {
            Ok(said)
        } else {
            Err(TextError::Unreadable { line: number })
        }
    }
}
