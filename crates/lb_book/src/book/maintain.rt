//! The call of a Book that does a maintenance if due.

use super::Book;
use super::adding::{add, take_room};
use lb_model::{Answer, Call, Entry, FullMark, MOST_NUMBERS, RoomError};

impl Book {
    ghost use Rattle.std.specs.Prelude.{◌≡◌, IfOk, IfSome, MatchOption, OnErr};
    ghost use Rattle.lb_model.specs.Legal.{IsNext};
    ghost use Rattle.lb_book.specs.Due.{IsMaintenance};
    ghost use Rattle.lb_book.specs.Journal.{AddsEntry, IsSound, past_of};

    /// Halves the loads and ends the errors that are over, if due: at least the maintenance time after the
    /// last time. It goes over the members once, however long the journal is.
    pub fn maintain_if_due(
        &mut self,
        session: u32,
        at: u64,
    ) -> Result<Option<Entry>, RoomError<FullMark>>
        ensures ok { IfOk result (λ found.
            MatchOption found (self.new ≡ self.old) (λ e. AddsEntry self.old self.new session at Call.Maintain e)) }
        ensures done { IfOk result (λ found. IfSome found (λ e. e.answer ≡ Answer.Done)) }
        ensures next { IfOk result (λ found. IfSome found (λ e. IsNext self.old.rules self.old.opening (past_of self.old) e)) }
        ensures sound { IsSound self.new }

        // Nothing is done exactly where nothing is due, and nothing is refused there.
        ensures due { IsMaintenance self.old at result }
        ensures err { OnErr result (self.new ≡ self.old) }
    {
        let moment = at.max(self.present.at);
        if !self.present.is_due(&self.opening.config, moment) {
            return Ok(None);
        }
        let next = self.opening.next + self.entries.len() as u64;
        let out = self.present.out;
        if next + out + 1 > MOST_NUMBERS {
            return Err(RoomError::Full(FullMark { next, out }));
        }
        take_room(&mut self.entries, &mut self.returned, out as usize + 1)?;
        let entry = Entry {
            seq: next,
            session,
            at: moment,
            call: Call::Maintain,
            answer: Answer::Done,
        };
        self.present.maintain(&self.opening.config, moment);
        add(&mut self.entries, &mut self.returned, entry);
        self.added += 1;
        Ok(Some(entry))
    }
}
