//! The call of a Site that cuts a journal, and where its segment goes.

use super::{Site, SiteName};
use crate::shelf::Shelf;
use jk_io::{IoError, NoMemory};
use lb_model::Segment;
use std::marker::{Model, PhantomData};

/// A segment that this Site cut off the journal of a balancer. It must be spent, and only `keep_in` spends it.
pub struct SiteSegment<L> {
    lb: u32,
    segment: Segment,
    of: PhantomData<L>,
}

impl<L> Model for SiteSegment<L> {
    ghost use Rattle.std.specs.Prelude.{ℕ};
    ghost use Rattle.lb_model.specs.declared.segment.Segment.{Segment};

    ghost Value = { ℕ × Segment };

    ghost view = { λ s. (s.lb, s.segment) };
}

impl<L> SiteSegment<L> {
    ghost use Rattle.std.specs.Prelude.{◌≡◌, [], ◌∷◌, IsErrOf, OnErr, OnOk};
    ghost use Rattle.jk_io.specs.Told.{HasCause, appended};
    ghost use Rattle.jk_io.specs.declared.failures.IoError.{IoError};

    /// Puts the segment on a shelf by one call of the shelf's `keep`, and gives the answer of that call.
    pub fn keep_in<S: Shelf>(self, shelf: &mut S) -> Result<(), IoError>
        ensures kept { OnOk result (S.shelved shelf.new ≡ appended (S.shelved shelf.old) (self ∷ [])) }
        ensures refused { OnErr result (S.shelved shelf.new ≡ S.shelved shelf.old) }
        ensures cause { HasCause (S.faults shelf.old) (S.faults shelf.new) result }
        ensures stands { OnOk result (S.faults shelf.new ≡ S.faults shelf.old) }
        ensures wanted { IsErrOf result IoError.NoMemory → S.faults shelf.new ≡ S.faults shelf.old }
    {
        let SiteSegment { lb, segment, of: _ } = self;
        shelf.keep(lb, segment)
    }
}

impl<L: SiteName> Site<L> {
    ghost use Rattle.std.specs.Prelude.{◌≡◌, ◌<◌, length, IfOk, OnErr};
    ghost use Rattle.lb_book.specs.Journal.{IsSound};
    ghost use Rattle.lb_shared.specs.Shelves.{CutsAt};
    ghost use Rattle.lb_shared.specs.Sites.{At};

    /// Cuts the journal of a balancer: hands out its opening and its kept entries, and goes on from where they end.
    pub fn cut(&mut self, lb: u32) -> Result<SiteSegment<L>, NoMemory>
        requires lb { lb < length self.old }
        ensures cut { IfOk result (CutsAt self.old self.new lb) }
        ensures sound { At self.new lb IsSound }
        ensures err { OnErr result (self.new ≡ self.old) }
    {
        let segment = self.books[lb as usize].cut()?;
        Ok(SiteSegment {
            lb,
            segment,
            of: PhantomData,
        })
    }
}
