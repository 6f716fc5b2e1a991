//! The last opening that is whole, and the entries after it.
ghost use Rattle.std.specs.Prelude.{◌≡◌, [], IfErr, IfOk, true, false};
ghost use Rattle.lb_book.specs.Journal.{IsSound};

use crate::error::FollowError;
use crate::judging::judge;
use crate::ruling::Ruling;
use jk_io::{Bytes, NoMemory};
use lb_book::Book;
use lb_model::{Entry, Method, Segment};

/// A balancer whose journal is followed.
#[derive(Drop)]
pub(crate) struct Run {
    pub(crate) name: Bytes,
    pub(crate) direct: bool,
    pub(crate) method: Method,
    /// The Book that is where the entries lead; between segments it has none.
    pub(crate) book: Book,
    /// The moment that it has reached.
    pub(crate) at: u64,
}

impl Run {
    ghost use Rattle.std.specs.Prelude.{◌≡◌, ◌++◌, ◌∷◌, [], IfErr, IfOk, OnOk, true, false};
    ghost use Rattle.lb_book.specs.Journal.{past_of};
    ghost use Rattle.lb_model.specs.Journal.{moment_of};
    ghost use Rattle.lb_model.specs.Legal.{IsNext};
    ghost use Rattle.lb_model.specs.Segments.{IsKeptEntry};
    ghost use Rattle.journal_verdict.specs.Lines.{RunState};
    ghost use Rattle.journal_verdict.specs.Machines.{DiffersBy, EndsRun, IsRunSoFar, TakesOn};

    /// After the opening of a segment.
    pub(crate) fn begin(name: Bytes, segment: Segment) -> Result<Run, NoMemory>
        ensures named { IfOk result (λ run. run.name ≡ name) }
        ensures kind { IfOk result (λ run. (run.direct ≡ segment.opening.config.direct) × (run.method ≡ segment.opening.config.method)) }
        ensures book { IfOk result (λ run. run.book ≡ record { rules = segment.rules; opening = segment.opening; entries = []; added = 0 }) }
        ensures at { IfOk result (λ run. run.at ≡ segment.opening.at) }
    {
        let Segment { rules, opening, .. } = segment;
        let direct = opening.config.direct;
        let method = opening.config.method;
        let at = opening.at;
        Ok(Run {
            name,
            direct,
            method,
            book: Book::resume(opening, rules)?,
            at,
        })
    }

    /// Takes a further entry, if it follows from those before it.
    pub(crate) fn take_entry(&mut self, entry: &Entry, number: u64) -> Result<(), FollowError>
        requires at { self.old.at ≡ moment_of self.old.book.opening (past_of self.old.book) }
        requires kept { IsKeptEntry self.old.book.rules entry.now }
        ensures ok { (run : RunState) → IsRunSoFar true self.old run → OnOk result (TakesOn run entry.now self.new) }
        ensures err { (run : RunState) → IsRunSoFar true self.old run → IfErr result (DiffersBy run entry.now number) }
    {
        match judge(&mut self.book, self.at, entry)? {
            None => {
                self.at = entry.at;
                Ok(())
            }
            Some((kept, ruled)) => Err(FollowError::Bad {
                line: number,
                kept,
                ruled,
            }),
        }
    }

    /// Ends the segment, if this is the count of its entries.
    pub(crate) fn take_end(&mut self, count: u64, number: u64) -> Result<(), FollowError>
        ensures { (run : RunState) → IsRunSoFar true self.old run → EndsRun run count number self.new result }
    {
        let kept = self.book.kept();
        if count != kept {
            return Err(FollowError::Bad {
                line: number,
                kept: Ruling::Count(count),
                ruled: Ruling::Count(kept),
            });
        }
        let _kept = self.book.cut()?;
        Ok(())
    }
}
