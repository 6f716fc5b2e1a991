//! A pooled reach that looks after its idle links between two sessions.
ghost use Rattle.std.specs.Prelude.{◌≡◌, ◌<◌, None, false, is_some};
ghost use Rattle.std.specs.Option.{ForSome};
ghost use Rattle.conn_pool.specs.Idle.{counts};
ghost use Rattle.jk_io.specs.Moments.{moment};
ghost use Rattle.conn_pool.specs.Looks.{ends_of};
ghost use Rattle.conn_pool.specs.Reaches.{HearsReach};
ghost use Rattle.conn_pool.specs.Watched.{LooksWhenDue, RestsAt};

use crate::watch::{Watch, watch_if_due};
use crate::{Idle, PooledReach, Pools, Tape};
use jk_io::{
    Awaited, Beside, Dial, IoError, Link, Meanings, NoMemory, Reach, Sink, Source, TalkAsked,
};
use site_config::Config;
use std::alloc::Global;
use std::marker::Model;
use std::sync::Wait;

/// A pooled reach, and the watch over its pools, if there is one.
#[derive(Drop)]
pub struct WatchedReach<'p, 'r, D: Dial, T: Tape, R> {
    reach: PooledReach<'p, 'r, D, T, R>,
    pools: &'p Pools<'r, Idle<D::L>, R>,
    cfg: &'p Config,
    watch: Option<Watch>,
    ghost every: { ForSome watch (λ w. 0 < w.every) },
    ghost sizes: { counts pools.now ≡ ends_of cfg.now.lbs },
}

impl<'p, 'r, D: Dial, T: Tape, R> Model for WatchedReach<'p, 'r, D, T, R> {
    ghost use Rattle.conn_pool.specs.Watched.{WatchedState};

    ghost Value = { WatchedState D T D.L };

    ghost view = { λ w. record { pooled = w.reach; watch = w.watch } };
}

impl<'p, 'r, D: Dial, T: Tape, R> WatchedReach<'p, 'r, D, T, R> {
    /// A reach over these pools of this site's members, and its watch, if any. No memory is taken.
    pub fn new(
        pools: &'p Pools<'r, Idle<D::L>, R>,
        dial: D,
        tape: T,
        cfg: &'p Config,
        watch: Option<Watch>,
    ) -> WatchedReach<'p, 'r, D, T, R>
        requires idle { T.is_idle tape }
        requires every { ForSome watch (λ w. 0 < w.every) }
        requires sizes { counts pools.now ≡ ends_of cfg.now.lbs }
        ensures pooled { result.pooled ≡ record { dial = dial; tape = tape; lent = None; back = None; sizes = counts pools.now; faults = 0 } }
        ensures watch { result.watch ≡ watch }
    {
        WatchedReach {
            reach: PooledReach::new(pools, dial, tape),
            pools,
            cfg,
            watch,
        }
    }

    /// Ends the reach and its watch, and gives back its dial and tape.
    pub fn into_parts(self) -> (D, T)
        requires { is_some self.pooled.lent ≡ false }
        ensures { result ≡ (self.entry.pooled.dial, self.entry.pooled.tape) }
    {
        let WatchedReach {
            reach,
            pools: _,
            cfg: _,
            watch: _,
        } = self;
        reach.into_parts()
    }
}

impl<'p, 'r, D: Dial, T: Tape, R: Wait> Meanings for WatchedReach<'p, 'r, D, T, R> {
    ghost use Rattle.std.specs.Prelude.{None, is_some};
    ghost use Rattle.conn_pool.specs.Reaches.{beside_of};

    type Beside = Beside;

    ghost incoming = { λ _. None };

    ghost received = { λ w. T.received w.pooled.tape };

    ghost sent = { λ w. T.sent w.pooled.tape };

    ghost beside = { λ w. beside_of T.begun T.talks w.pooled };

    ghost faults = { λ w. w.pooled.faults };

    ghost is_open = { λ w. is_some w.pooled.lent };
}

impl<'p, 'r, D: Dial, T: Tape, R: Wait> Source for WatchedReach<'p, 'r, D, T, R> {
    fn read(&mut self, buf: &mut [u8]) -> Result<usize, IoError> {
        self.reach.read(buf)
    }
}

impl<'p, 'r, D: Dial, T: Tape, R: Wait> Sink for WatchedReach<'p, 'r, D, T, R> {
    fn write(&mut self, piece: &[u8]) -> Result<usize, IoError> {
        self.reach.write(piece)
    }

    fn flush(&mut self) -> Result<(), IoError> {
        self.reach.flush()
    }
}

impl<'p, 'r, D: Dial, T: Tape, R: Wait> Link for WatchedReach<'p, 'r, D, T, R> {
    // what the pooled reach was told
    ghost heard = { λ before what after. HearsReach (moment D.L.incoming D.L.received D.L.sent D.L.faults) D.L.heard D.heard before.pooled what after.pooled };

    fn await_next(&mut self, what: Awaited)
        ensures told { HearsReach (moment D.L.incoming D.L.received D.L.sent D.L.faults) D.L.heard D.heard self.old.pooled what self.new.pooled }
        ensures watch { self.new ≡ record self.old { pooled = record self.old.pooled { dial = self.new.pooled.dial } } }
        ensures dial { D.faults self.new.pooled.dial ≡ D.faults self.old.pooled.dial }
    {
        self.reach.await_next(what);
    }
}

impl<'p, 'r, D: Dial, T: Tape, R: Wait> Reach for WatchedReach<'p, 'r, D, T, R> {
    ghost use Rattle.std.specs.Prelude.{option_map, refl};
    ghost use Rattle.conn_pool.specs.Watched.{times_of};

    ghost looks = { λ w. option_map times_of w.watch };

    fn begin(&mut self, alloc: Global, asked: &TalkAsked<'_>) -> Result<bool, IoError> {
        self.reach.begin(alloc, asked)
    }

    fn finish(&mut self, keep: bool) {
        self.reach.finish(keep);
    }

    /// The idle links are looked at where it is time, and then the moment of the last looks is now.
    fn rest(&mut self, alloc: Global, now: u64) -> Result<(), NoMemory>
        requires { is_some self.old.pooled.lent ≡ false }
        ensures watch { RestsAt self.old.watch now self.new.watch }
        ensures pooled { self.new.pooled ≡ self.old.pooled }
    {
        match &mut self.watch {
            Some(watch) => look(alloc, self.pools, self.cfg, watch, now),
            None => Ok(()),
        }
    }

    ghost open_in_talk = { λ w. refl };
}

/// Looks at the idle links of all members, if it is time.
fn look<L: Link + Drop, R: Wait>(
    alloc: Global,
    pools: &Pools<'_, Idle<L>, R>,
    cfg: &Config,
    watch: &mut Watch,
    now: u64,
) -> Result<(), NoMemory>
    requires every { 0 < watch.old.every }
    requires sizes { counts pools.now ≡ ends_of cfg.now.lbs }
    ensures { LooksWhenDue watch.old now watch.new }
{
    watch_if_due(alloc, pools, cfg, watch, now)?;
    Ok(())
}
