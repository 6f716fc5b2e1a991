//! A reach: talks with the members of balancers, one after another, each over a link that is dialled or kept.
use crate::failures::{IoError, NoMemory};
use crate::reaching::{Beside, TalkAsked};
use crate::traits::streams::{Link, Meanings};
use std::alloc::Global;

/// A link to the member of the running talk. Where none runs, a read or a write is refused with Failed.
pub trait Reach: Link + Meanings<Beside = Beside> {
    ghost use Rattle.std.specs.Prelude.{◌≡◌, ◌<◌, [], ◌∷◌, true, false, Option, None, IfSome, IsOk, IfOk, OnOk, IsErrOf, is_ok, slice_index};
    ghost use Rattle.jk_io.specs.Looks.{LookTimes, LooksIfDue};
    ghost use Rattle.jk_io.specs.Told.{appended, IsEmpty, HasCause};
    ghost use Rattle.jk_io.specs.Talks.{begun_with, failed_talk_of, IsNoteOf};
    ghost use Rattle.jk_io.specs.declared.reaching.Talk.{Talk};

    // when it looks through its idle links; None where it never does, or doesn't tell it
    ghost looks: { Self → Option LookTimes } = { λ _. None };

    /// Begins a talk with a member, and answers whether its link is new.
    fn begin(&mut self, alloc: Global, asked: &TalkAsked<'_>) -> Result<bool, IoError>
        requires idle { (Self.beside self.old).runs ≡ false }
        requires known { asked.now.member < slice_index (Self.beside self.old).sizes asked.now.lb }

        ensures runs { (Self.beside self.new).runs ≡ is_ok result }
        ensures new_link { IfOk result (λ dialled. asked.now.fresh ≡ true → dialled ≡ true) }
        ensures begun { IfOk result (λ dialled. IfSome (Self.beside self.new).begun
            (λ b. b ≡ begun_with asked.now dialled (Self.incoming self.new))) }
        ensures nothing_yet { IsEmpty (Self.sent self.new) × IsEmpty (Self.received self.new) }

        // A begin that failed counts as an ended talk; one that wanted memory doesn't.
        ensures ok { OnOk result ((Self.beside self.new).talks ≡ (Self.beside self.old).talks) }
        ensures failed { IsErrOf result IoError.Failed
            → (Self.beside self.new).talks ≡ appended (Self.beside self.old).talks (failed_talk_of asked.now ∷ []) }
        ensures wanted { IsErrOf result IoError.NoMemory → (Self.beside self.new).talks ≡ (Self.beside self.old).talks }
        ensures same_sizes { (Self.beside self.new).sizes ≡ (Self.beside self.old).sizes }
        ensures cause { HasCause (Self.faults self.old) (Self.faults self.new) result }
        ensures steady { IsOk result → Self.faults self.new ≡ Self.faults self.old };

    /// Ends the running talk. Its link is kept for a later one where `keep` is true and it may be.
    fn finish(&mut self, keep: bool)
        requires { (Self.beside self.old).runs ≡ true }
        ensures ended { (Self.beside self.new).runs ≡ false }
        ensures nothing_left { IsEmpty (Self.sent self.new) × IsEmpty (Self.received self.new) }

        // Where the talks are told, one note alone says what is told of this one.
        ensures noted { let b = Self.beside self.old in
            (note : Talk) → IsNoteOf b.begun (Self.sent self.old) (Self.received self.old) keep note
            → (Self.beside self.new).talks ≡ appended b.talks (note ∷ []) }
        ensures same_sizes { (Self.beside self.new).sizes ≡ (Self.beside self.old).sizes }
        ensures same_faults { Self.faults self.new ≡ Self.faults self.old };

    /// Looks after idle links between two sessions, at this moment; most reaches do nothing.
    fn rest(&mut self, alloc: Global, now: u64) -> Result<(), NoMemory>
        requires { (Self.beside self.old).runs ≡ false }

        // Also where it wanted memory.
        ensures looks { LooksIfDue (Self.looks self.old) now (Self.looks self.new) }
        ensures same { (Self.incoming self.new ≡ Self.incoming self.old) × (Self.received self.new ≡ Self.received self.old) }
        ensures same_others { (Self.sent self.new ≡ Self.sent self.old) × (Self.beside self.new ≡ Self.beside self.old) }
        ensures same_faults { Self.faults self.new ≡ Self.faults self.old };

    // a reach is open while a talk runs
    ghost open_in_talk: { (r : Self) → Self.is_open r ≡ (Self.beside r).runs };
}
