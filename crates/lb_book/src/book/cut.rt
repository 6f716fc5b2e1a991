//! The calls of a Book that hand out its journal.

use super::Book;
use crate::copies::copy_opening;
use crate::ending::ending;
use jk_io::NoMemory;
use lb_model::{EntryList, Segment};
use std::mem::replace;

impl Book {
    ghost use Rattle.std.specs.Prelude.{◌≡◌, IfOk, OnErr, OnOk};
    ghost use Rattle.lb_model.specs.Legal.{IsLegal};
    ghost use Rattle.lb_book.specs.Ending.{IsCut};
    ghost use Rattle.lb_book.specs.Journal.{IsSegmentOf, IsSound};

    /// The opening and the kept entries.
    pub fn segment(&self) -> Result<Segment, NoMemory>
        ensures whole { IfOk result (IsSegmentOf self.now) }
        ensures legal { IfOk result (λ s. IsLegal s.rules s.opening s.entries) }
        ensures sound { IsSound self.now }
    {
        let opening = copy_opening(&self.opening)?;
        let alloc = self.opening.config.members.allocator();
        let entries = Vec::from_slice(alloc, self.entries.as_slice())?;
        Ok(Segment {
            rules: self.rules.number(),
            opening,
            entries: EntryList::from_vec(entries),
        })
    }

    /// Hands out the opening and the kept entries, and goes on from where they end. It takes the room for the Returns
    /// of the tickets that are out before it changes anything.
    pub fn cut(&mut self) -> Result<Segment, NoMemory>
        ensures whole { IfOk result (IsSegmentOf self.old) }
        ensures legal { IfOk result (λ s. IsLegal s.rules s.opening s.entries) }
        ensures cut { OnOk result (IsCut self.old self.new) }
        ensures sound { IsSound self.new }
        ensures err { OnErr result (self.new ≡ self.old) }
    {
        let opening = ending(
            &self.opening,
            self.entries.as_slice(),
            &self.present,
            self.returned.as_slice(),
            self.early.as_slice(),
        )?;
        let alloc = self.opening.config.members.allocator();
        let mut fresh = Book::open(alloc, opening, self.rules)?;
        fresh.added = self.added;
        let Book {
            rules,
            opening,
            entries,
            ..
        } = replace(self, fresh);
        Ok(Segment {
            rules: rules.number(),
            opening,
            entries: EntryList::from_vec(entries),
        })
    }
}
