//! A reach whose links are dialled, or taken from the pools.
ghost use Rattle.std.specs.Prelude.{◌≡◌, ◌<◌, ◌≤◌, [], ◌∷◌, true, false, None, Ok, IsOk, IsErrOf, IfOk, IfSome, IsSomeAnd, OnOk, OnErr, is_ok, is_some, length, take, slice_index};
ghost use Rattle.jk_io.specs.Told.{appended, IsEmpty, Rose, HasCause};
ghost use Rattle.jk_io.specs.Talks.{failed_talk_of, IsNoteOf};
ghost use Rattle.jk_io.specs.declared.reaching.Talk.{Talk};
ghost use Rattle.conn_pool.specs.Backs.{back_of};
ghost use Rattle.conn_pool.specs.Idle.{HasMember, counts};
ghost use Rattle.jk_io.specs.Moments.{moment};
ghost use Rattle.conn_pool.specs.Reaches.{beside_of, told_begun, FlushesLink, GoesBack, HearsReach, ReadsLink, WritesLink, StaysLent};

use crate::beginning::{begin_dialled, begin_idle};
use crate::idle::Idle;
use crate::keeping::Pools;
use crate::lent::Lent;
use crate::noted::{counted, flush_lent, outside_talk, read_lent, write_lent};
use crate::pool::HandedIn;
use crate::tape::Tape;
use jk_io::{
    Awaited, Beside, Dial, IoError, Link, Meanings, NoMemory, Reach, Sink, Source, TalkAsked,
};
use std::alloc::Global;
use std::marker::Model;
use std::sync::Wait;

/// Talks over pooled links. A talk takes an idle link of its member unless a fresh one is asked for, and dials where
/// there is none. A link of which a call was refused in its talk is never put back.
#[derive(Drop)]
pub struct PooledReach<'p, 'r, D: Dial, T: Tape, R> {
    pools: &'p Pools<'r, Idle<D::L>, R>,
    dial: D,
    tape: T,
    lent: Option<Lent<D::L>>,
    /// The link that the last finish handed to a pool, as it was then.
    back: Option<HandedIn<Idle<D::L>>>,
    failed: u64,
}

impl<'p, 'r, D: Dial, T: Tape, R> Model for PooledReach<'p, 'r, D, T, R> {
    ghost use Rattle.std.specs.Prelude.{◌<◌, MatchOption, slice_index};
    ghost use Rattle.jk_io.specs.Told.{IsEmpty};
    ghost use Rattle.conn_pool.specs.Backs.{back_of};
    ghost use Rattle.conn_pool.specs.Idle.{counts};
    ghost use Rattle.jk_io.specs.Moments.{moment};
    ghost use Rattle.conn_pool.specs.Reaches.{PooledState};

    ghost Value = { PooledState D T D.L };

    ghost view = { λ r. record {
      dial = r.dial;
      tape = r.tape;
      lent = r.lent;
      back = back_of (moment D.L.incoming D.L.received D.L.sent D.L.faults) r.back;
      sizes = counts r.pools.now;
      faults = r.failed;
    } };

    ghost invariant = { λ r. MatchOption r.lent
        (T.is_idle r.tape × IsEmpty (T.sent r.tape) × IsEmpty (T.received r.tape))
        (λ lent. T.is_running r.tape × (lent.member < slice_index (counts r.pools.now) lent.lb)) };
}

impl<'p, 'r, D: Dial, T: Tape, R> PooledReach<'p, 'r, D, T, R> {
    /// A reach over these pools.
    pub fn new(
        pools: &'p Pools<'r, Idle<D::L>, R>,
        dial: D,
        tape: T,
    ) -> PooledReach<'p, 'r, D, T, R>
        requires { T.is_idle tape }
        ensures { result ≡ record { dial = dial; tape = tape; lent = None; back = None; sizes = counts pools.now; faults = 0 } }
    {
        PooledReach {
            pools,
            dial,
            tape,
            lent: None,
            back: None,
            failed: 0,
        }
    }

    /// Ends the reach, and gives back its dial and tape.
    pub fn into_parts(self) -> (D, T)
        requires { is_some self.lent ≡ false }
        ensures { result ≡ (self.entry.dial, self.entry.tape) }
    {
        let PooledReach {
            pools: _,
            dial,
            tape,
            lent: _,
            back: _,
            failed: _,
        } = self;
        (dial, tape)
    }
}

impl<'p, 'r, D: Dial, T: Tape, R> Meanings for PooledReach<'p, 'r, D, T, R> {
    ghost use Rattle.std.specs.Prelude.{None, is_some};
    ghost use Rattle.conn_pool.specs.Reaches.{beside_of};

    type Beside = Beside;

    ghost incoming = { λ _. None };

    ghost received = { λ r. T.received r.tape };

    ghost sent = { λ r. T.sent r.tape };

    ghost beside = { λ r. beside_of T.begun T.talks r };

    ghost faults = { λ r. r.faults };

    ghost is_open = { λ r. is_some r.lent };
}

impl<'p, 'r, D: Dial, T: Tape, R> Source for PooledReach<'p, 'r, D, T, R> {
    fn read(&mut self, buf: &mut [u8]) -> Result<usize, IoError>
        requires { 0 < length buf.old }

        // In a talk it is a read of the talk's link.
        ensures talk { IfSome self.old.lent (λ before. IsSomeAnd self.new.lent (λ after.
            ReadsLink before.link after.link buf.new result × StaysLent before after result)) }
        ensures same_others { (self.new.dial ≡ self.old.dial) × (self.new.back ≡ self.old.back) }

        // Where no talk runs it fails, and nothing but the count of faults changes.
        ensures outside { self.old.lent ≡ None → IsErrOf result IoError.Failed × (buf.new ≡ buf.old)
            × (self.new ≡ record self.old { faults = self.new.faults }) }

        // What is told of the talk, and what each source says.
        ensures shut { is_some self.old.lent ≡ false → IsErrOf result IoError.Failed }
        ensures count { IfOk result (λ n. n ≤ length buf.new) }
        ensures got { IfOk result (λ n. T.received self.new.tape ≡ appended (T.received self.old.tape) (take n buf.new)) }
        ensures kept_on_error { OnErr result (T.received self.new.tape ≡ T.received self.old.tape) }
        ensures same { (T.sent self.new.tape ≡ T.sent self.old.tape)
            × (beside_of T.begun T.talks self.new ≡ beside_of T.begun T.talks self.old) }
        ensures cause { HasCause self.old.faults self.new.faults result }
        ensures steady { IsOk result → self.new.faults ≡ self.old.faults }
    {
        let Some(lent) = &mut self.lent else {
            return outside_talk(&mut self.failed);
        };
        read_lent(lent, &mut self.tape, &mut self.failed, buf)
    }
}

impl<'p, 'r, D: Dial, T: Tape, R> Sink for PooledReach<'p, 'r, D, T, R> {
    fn write(&mut self, piece: &[u8]) -> Result<usize, IoError>
        requires { 0 < length piece.now }

        // In a talk it is a write to the talk's link.
        ensures talk { IfSome self.old.lent (λ before. IsSomeAnd self.new.lent (λ after.
            WritesLink before.link after.link piece.now result × StaysLent before after result)) }
        ensures same_others { (self.new.dial ≡ self.old.dial) × (self.new.back ≡ self.old.back) }

        // Where no talk runs it fails, and nothing but the count of faults changes.
        ensures outside { self.old.lent ≡ None → IsErrOf result IoError.Failed × (self.new ≡ record self.old { faults = self.new.faults }) }

        // What is told of the talk, and what each sink says.
        ensures shut { is_some self.old.lent ≡ false → IsErrOf result IoError.Failed }
        ensures count { IfOk result (λ n. (0 < n) × (n ≤ length piece.now)) }
        ensures put { IfOk result (λ n. T.sent self.new.tape ≡ appended (T.sent self.old.tape) (take n piece.now)) }
        ensures kept_on_error { OnErr result (T.sent self.new.tape ≡ T.sent self.old.tape) }
        ensures same { (T.received self.new.tape ≡ T.received self.old.tape)
            × (beside_of T.begun T.talks self.new ≡ beside_of T.begun T.talks self.old) }
        ensures cause { HasCause self.old.faults self.new.faults result }
        ensures steady { IsOk result → self.new.faults ≡ self.old.faults }
    {
        let Some(lent) = &mut self.lent else {
            return outside_talk(&mut self.failed);
        };
        write_lent(lent, &mut self.tape, &mut self.failed, piece)
    }

    fn flush(&mut self) -> Result<(), IoError>
        // In a talk it is a flush of the talk's link, and where none runs there is nothing to do.
        ensures talk { IfSome self.old.lent (λ before. IsSomeAnd self.new.lent (λ after. FlushesLink before after result)) }
        ensures outside { self.old.lent ≡ None → IsOk result × (self.new ≡ self.old) }
        ensures same_others { self.new ≡ record self.old { lent = self.new.lent; faults = self.new.faults } }
        ensures runs { is_some self.new.lent ≡ is_some self.old.lent }
        ensures cause { HasCause self.old.faults self.new.faults result }
        ensures steady { IsOk result → self.new.faults ≡ self.old.faults }
    {
        match &mut self.lent {
            Some(lent) => flush_lent(lent, &mut self.failed),
            None => Ok(()),
        }
    }
}

impl<'p, 'r, D: Dial, T: Tape, R> Link for PooledReach<'p, 'r, D, T, R> {
    ghost heard = { HearsReach (moment D.L.incoming D.L.received D.L.sent D.L.faults) D.L.heard D.heard };

    fn await_next(&mut self, what: Awaited)
        // A talk's link is told, and where no talk runs the dial, of a link that is to be dialled.
        ensures told { HearsReach (moment D.L.incoming D.L.received D.L.sent D.L.faults) D.L.heard D.heard self.old what self.new }
        ensures talk { is_some self.old.lent ≡ true → self.new ≡ self.old }
        ensures same { self.new ≡ record self.old { dial = self.new.dial } }
        ensures dial { D.faults self.new.dial ≡ D.faults self.old.dial }
    {
        match (&mut self.lent, what) {
            (Some(lent), _) => lent.await_next(what),
            (None, Awaited::Link { millis, keepalive }) => self.dial.await_dial(millis, keepalive),
            (None, _) => {}
        }
    }
}

impl<'p, 'r, D: Dial, T: Tape, R: Wait> Reach for PooledReach<'p, 'r, D, T, R> {
    ghost use Rattle.std.specs.Prelude.{refl};

    fn begin(&mut self, alloc: Global, asked: &TalkAsked<'_>) -> Result<bool, IoError>
        requires idle { is_some self.old.lent ≡ false }
        requires known { asked.now.member < slice_index self.old.sizes asked.now.lb }

        // The talk has a link of this member, of which no call was made in it.
        ensures runs { is_some self.new.lent ≡ is_ok result }
        ensures whose { IfSome self.new.lent (λ lent. (lent.lb ≡ asked.now.lb) × (lent.member ≡ asked.now.member)) }
        ensures begins { IfSome self.new.lent (λ lent. (lent.began ≡ lent.link.faults) × (lent.faulty ≡ false)) }
        ensures new_link { IfOk result (λ dialled. asked.now.fresh ≡ true → dialled ≡ true) }

        // A new link is the one that the dial gave in this begin for this host and port, and no idle link is called new.
        ensures dialled { IfOk result (λ dialled. IfSome self.new.lent (λ lent. lent.dialled ≡ dialled)) }
        ensures given { result ≡ Ok true
            → IfSome self.new.lent (λ lent. D.gives self.old.dial asked.now.host.now asked.now.port lent.given self.new.dial) }
        ensures begun { IfOk result (λ dialled. IfSome (T.begun self.new.tape) (λ b. b ≡ told_begun asked.now dialled)) }
        ensures nothing_yet { IsEmpty (T.sent self.new.tape) × IsEmpty (T.received self.new.tape) }

        // Over an idle link the dial isn't asked.
        ensures idle { IfOk result (λ dialled. dialled ≡ false → self.new.dial ≡ self.old.dial) }

        // An idle link is lent as a look in this begin found it: quiet, so that no byte is there and its other end didn't close.
        // A pool tells nothing of its links, so no earlier look will do.
        ensures quiet { result ≡ Ok false → IfSome self.new.lent (λ lent. (kept : D.L) × D.L.found_quiet kept lent.given) }

        // Where the dial failed there is no talk, and a begin fails only there.
        ensures clean { IsOk result → D.faults self.new.dial ≡ D.faults self.old.dial }
        ensures dial_failed { IsErrOf result IoError.Failed → Rose (D.faults self.old.dial) (D.faults self.new.dial) }

        // A begin that failed counts as an ended talk; one that wanted memory doesn't.
        ensures ok { OnOk result (T.talks self.new.tape ≡ T.talks self.old.tape) }
        ensures failed { IsErrOf result IoError.Failed
            → T.talks self.new.tape ≡ appended (T.talks self.old.tape) (failed_talk_of asked.now ∷ []) }
        ensures wanted { IsErrOf result IoError.NoMemory → T.talks self.new.tape ≡ T.talks self.old.tape }
        ensures same_sizes { self.new.sizes ≡ self.old.sizes }
        ensures same_back { self.new.back ≡ self.old.back }
        ensures cause { HasCause self.old.faults self.new.faults result }
        ensures steady { IsOk result → self.new.faults ≡ self.old.faults }
        ensures want_of_memory { IsErrOf result IoError.NoMemory → self.new.faults ≡ self.old.faults }
    {
        if begin_idle(self.pools, &mut self.tape, &mut self.lent, asked)? {
            let Some(lent) = &self.lent else {
                unreachable!()
            };
            // Another worker's dial may have made it.
            self.dial.lend(lent.link());
            return Ok(false);
        }
        let answer = self.dial.dial(alloc, asked.host, asked.port);
        let begun = begin_dialled(
            alloc,
            self.pools,
            &mut self.tape,
            &mut self.lent,
            asked,
            answer,
        );
        counted(begun, &mut self.failed)
    }

    fn finish(&mut self, keep: bool)
        requires { is_some self.old.lent ≡ true }

        // A link that is kept goes to the pool of its member. One of which a call was refused is closed all the same.
        ensures back { IfSome self.old.lent (λ lent. GoesBack lent keep self.new.back) }
        ensures same_dial { self.new.dial ≡ self.old.dial }

        ensures ended { self.new.lent ≡ None }
        ensures nothing_left { IsEmpty (T.sent self.new.tape) × IsEmpty (T.received self.new.tape) }
        ensures noted { (note : Talk) → IsNoteOf (T.begun self.old.tape) (T.sent self.old.tape) (T.received self.old.tape) keep note
            → T.talks self.new.tape ≡ appended (T.talks self.old.tape) (note ∷ []) }
        ensures same_sizes { self.new.sizes ≡ self.old.sizes }
        ensures same_faults { self.new.faults ≡ self.old.faults }
    {
        let Some(lent) = self.lent.take() else {
            unreachable!()
        };
        self.tape.finish(keep);
        self.back = put_back(self.pools, lent, keep);
    }

    /// Its idle links stay as they are.
    fn rest(&mut self, _alloc: Global, _now: u64) -> Result<(), NoMemory> {
        Ok(())
    }

    ghost open_in_talk = { λ r. refl };
}

// Hands a talk's link to the pool of its member if it is to be kept and may be. It isn't looked at: the next begin looks.
fn put_back<L: Link + Drop, R: Wait>(
    pools: &Pools<'_, Idle<L>, R>,
    lent: Lent<L>,
    keep: bool,
) -> Option<HandedIn<Idle<L>>>
    requires { HasMember pools.now lent.lb lent.member }
    ensures { GoesBack lent keep (back_of (moment L.incoming L.received L.sent L.faults) result) }
{
    let idle = lent.kept(keep)?;
    Some(pools.hand_in(idle.home(), idle))
}
