//! The call of a Book that does a command of the status worker.

use super::Book;
use super::adding::{add, take_room};
use crate::commanded::judge;
use lb_model::{AdminError, Answer, Call, Command, Entry, FullMark, MOST_NUMBERS};

impl Book {
    ghost use Rattle.std.specs.Prelude.{◌≡◌, IfOk, OnErr};
    ghost use Rattle.lb_model.specs.Legal.{IsNext};
    ghost use Rattle.lb_book.specs.Commanded.{IsCommanded};
    ghost use Rattle.lb_book.specs.Journal.{AddsEntry, IsSound, past_of};

    /// Does a command: an update of a member, or its reset or recovery. It goes over the members, however long the
    /// journal is.
    pub fn admin(
        &mut self,
        session: u32,
        at: u64,
        command: &Command,
    ) -> Result<Entry, AdminError<FullMark>>
        ensures ok { IfOk result (λ e. AddsEntry self.old self.new session at (Call.Admin command.now) e) }
        ensures done { IfOk result (λ e. e.answer ≡ Answer.Done) }
        ensures next { IfOk result (λ e. IsNext self.old.rules self.old.opening (past_of self.old) e) }
        ensures sound { IsSound self.new }

        // Each refusal where it is the first one that holds, and an entry where none does.
        ensures commanded { IsCommanded self.old command.now result }
        ensures err { OnErr result (self.new ≡ self.old) }
    {
        let next = self.opening.next + self.entries.len() as u64;
        let out = self.present.out;
        let mark = FullMark { next, out };
        let common = judge(self.present.rows.as_slice(), command, mark)?;
        if next + out + 1 > MOST_NUMBERS {
            return Err(AdminError::Full(mark));
        }
        take_room(&mut self.entries, &mut self.returned, out as usize + 1)?;
        let entry = Entry {
            seq: next,
            session,
            at: at.max(self.present.at),
            call: Call::Admin(*command),
            answer: Answer::Done,
        };
        self.present
            .command(&self.opening.config, command, common, entry.at);
        add(&mut self.entries, &mut self.returned, entry);
        self.added += 1;
        Ok(entry)
    }
}
