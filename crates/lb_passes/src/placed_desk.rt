//! A desk with one pass of a named place, for callers that know a desk only as a `Desk`: its pass comes back as one of that place.
ghost use Rattle.std.specs.Prelude.{◌≡◌, [], ◌∷◌, Some};
ghost use Rattle.lb_passes.specs.Placed.{IsBack, IsPlaced};
ghost use Rattle.lb_passes.specs.PassDesks.{table_in};
ghost use Rattle.lb_passes.specs.declared.pass_book.PassBook.{PassBook};

use crate::pass::{Note, Pass, PassList};
use crate::pass_book::PassBook;
use crate::pass_desk::PassDesk;
use jk_io::NoMemory;
use lb_book::desk::Choice;
use lb_book::{Desk, PlainLease};
use lb_model::{AdminError, Ask, Command, FullMark, Outcome, RoomError, Stray, View};
use std::alloc::Global;
use std::marker::{Brand, PhantomData};
use std::sync::Wait;

/// Where passes belong, chosen where they are dealt: the table that they are of, what their history began with, and how many
/// there are.
pub trait PassPlace {
    ghost use Rattle.std.specs.Prelude.{ℕ};
    ghost use Rattle.atomic_table.specs.Seated.{TableId};
    ghost use Rattle.lb_passes.specs.declared.pass_view.Origin.{Origin};

    ghost table: { TableId };

    ghost origin: { Origin };

    ghost given: { ℕ };
}

impl PassPlace for Brand {
    ghost use Rattle.lb_passes.specs.Placed.{no_table};
    ghost use Rattle.lb_passes.specs.Plays.{no_origin};

    ghost table = { no_table };

    ghost origin = { no_origin };

    ghost given = { 0 };
}

/// A desk with one pass, which stays in its place whatever is called.
#[derive(Drop)]
pub struct PlacedDesk<'b, 'r, P: PassPlace, R> {
    pub(crate) desk: PassDesk<'b, 'r, R>,
    pub(crate) of: PhantomData<P>,
    pub ghost placed: { IsPlaced P.table P.origin P.given desk },
}

impl<'b, 'r, P: PassPlace, R> PlacedDesk<'b, 'r, P, R> {
    ghost use Rattle.std.specs.Prelude.{◌≡◌, [], ◌∷◌, map, Some, IfOk};
    ghost use mathlib.Core.Option.{some};
    ghost use lib.ListN.{get_elem?};
    ghost use Rattle.lb_passes.specs.Holds.{entries_in, own_in};
    ghost use Rattle.lb_passes.specs.Notes.{IsNoteOfPass, MeetsAt};
    ghost use Rattle.lb_passes.specs.Placed.{IsBack, IsUnused, IsWaitingPass};
    ghost use Rattle.lb_passes.specs.PassDesks.{table_in, view_of};
    ghost use Rattle.lb_passes.specs.declared.pass.Pass.{Pass};
    ghost use Rattle.lb_passes.specs.declared.pass_book.PassBook.{PassBook};

    /// A desk with this pass of the one book. No call was made with it yet.
    pub fn new(
        alloc: Global,
        rt: &'r R,
        books: &'b [PassBook],
        pass: Pass,
    ) -> Result<PlacedDesk<'b, 'r, P, R>, NoMemory>
        requires book { (b : PassBook) × (books.now ≡ b ∷ []) × (table_in b ≡ P.table) }
        requires pass { IsUnused P.table P.origin P.given pass }
        ensures { IfOk result (λ d. IsWaitingPass pass d.desk.desk) }
    {
        let mut passes = PassList::new(alloc);
        passes.push(pass)?;
        let desk = PassDesk::new(alloc, rt, books, passes);
        Ok(PlacedDesk {
            desk,
            of: PhantomData,
        })
    }

    /// A note of what the pass has seen. It takes no memory.
    pub fn note(&mut self) -> Note
        ensures of { result.seat.table_id ≡ P.table }
        ensures note { (p : Pass) → get_elem? self.old.desk.passes 0 ≡ some p → IsNoteOfPass p result }
        ensures same { self.new.desk.desk ≡ self.old.desk.desk }
        ensures views { map view_of self.new.desk.passes ≡ map view_of self.old.desk.passes }
    {
        self.desk.note(0)
    }

    /// What the note has seen becomes part of what the pass has seen. It takes no memory.
    pub fn meet(&mut self, note: Note)
        requires of { note.seat.table_id ≡ P.table }
        ensures same { self.new.desk.desk ≡ self.old.desk.desk }
        ensures meets { MeetsAt self.old.desk self.new.desk 0 note }
    {
        self.desk.meet(0, note);
    }

    /// Ends the desk.
    pub fn into_pass(self) -> Pass
        requires none_held { self.desk.desk.held ≡ [] }
        ensures back { IsBack P.table P.origin P.given result }
        ensures number { self.entry.desk.desk.caller ≡ Some result.number }

        // The pass's own entries are those of the desk's receipts, each once and in their order.
        ensures own { own_in (view_of result) ≡ entries_in self.entry.desk.desk.receipts }
    {
        let PlacedDesk { desk, of: _ } = self;
        let mut passes = desk.into_passes();
        match passes.pop() {
            Some(pass) => pass,
            None => unreachable!(),
        }
    }
}

impl<'b, 'r, P: PassPlace, R: Wait> Desk for PlacedDesk<'b, 'r, P, R> {
    ghost use Rattle.std.specs.Prelude.{◌≡◌};
    ghost use Rattle.lb_book.specs.PlainLeases.{note_of};

    type Lease = PlainLease;

    type Mark = FullMark;

    type Shown = View;

    ghost state = { λ d. d.desk.desk };

    ghost note = { note_of };

    ghost numbers = { λ mark. mark };

    ghost view = { λ view. view };

    fn choose(
        &mut self,
        lb: u32,
        session: u32,
        at: u64,
        ask: &Ask,
    ) -> Result<Choice<PlainLease>, RoomError<FullMark>> {
        self.desk.choose(lb, session, at, ask)
    }

    fn hand_back(
        &mut self,
        session: u32,
        at: u64,
        lease: PlainLease,
        outcome: Outcome,
    ) -> Result<(), Stray> {
        self.desk.hand_back(session, at, lease, outcome)
    }

    fn command(
        &mut self,
        lb: u32,
        session: u32,
        at: u64,
        command: &Command,
    ) -> Result<(), AdminError<FullMark>> {
        self.desk.command(lb, session, at, command)
    }

    fn look(&mut self, lb: u32) -> Result<View, NoMemory> {
        self.desk.look(lb)
    }

    fn shown(shown: &View) -> &View
        ensures { result.now ≡ shown.now }
    {
        shown
    }
}
