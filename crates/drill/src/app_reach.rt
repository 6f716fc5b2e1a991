//! A reach whose links lead to the application of a container in memory.
ghost use Rattle.std.specs.Prelude.{◌≡◌, ◌≤◌, [], false};
ghost use Rattle.jk_io.specs.Told.{Rose};

use crate::app_link::AppLink;
use ajp_container::AppConfig;
use jk_io::{Awaited, Beside, IoError, Link, Meanings, NoMemory, Reach, Sink, Source, TalkAsked};
use site_config::Config;
use std::alloc::Global;
use std::marker::Model;

/// Talks with the members of these balancers, each over a new link to the application. All of them use the memory of the
/// first.
#[derive(Drop)]
pub struct AppReach<'a> {
    cfg: &'a Config,
    link: AppLink<'a>,
    runs: bool,
    failed: u64,
}

impl<'a> Model for AppReach<'a> {
    ghost use Rattle.drill.specs.Wires.{AppReachState};

    ghost Value = { AppReachState };

    ghost view = { λ r. record { lbs = r.cfg.now.lbs; link = r.link; runs = r.runs; faults = r.failed } };
}

impl<'a> AppReach<'a> {
    /// A reach in which no talk runs. It takes no memory.
    pub fn new(alloc: Global, cfg: &'a Config, app: &'a AppConfig) -> AppReach<'a>
        ensures { result ≡ record {
          lbs = cfg.now.lbs;
          link = record { sent = []; unserved = []; received = []; unread = [] };
          runs = false;
          faults = 0;
        } }
    {
        AppReach {
            cfg,
            link: AppLink::new(alloc, app),
            runs: false,
            failed: 0,
        }
    }
}

// Counts a call outside a talk.
fn fail(failed: &mut u64) -> IoError
    ensures error { result ≡ IoError.Failed }
    ensures rose { Rose failed.old failed.new }
    ensures no_fewer { failed.old ≤ failed.new }
{
    *failed = failed.saturating_add(1);
    IoError::Failed
}

impl<'a> Meanings for AppReach<'a> {
    ghost use Rattle.std.specs.Prelude.{None, Some};
    ghost use Rattle.exchange.specs.Requests.{sizes_of};

    type Beside = Beside;

    ghost incoming = { λ _. None };

    ghost received = { λ r. Some r.link.received };

    ghost sent = { λ r. Some r.link.sent };

    ghost beside = { λ r. record { runs = r.runs; sizes = sizes_of r.lbs; begun = None; talks = None } };

    ghost faults = { λ r. r.faults };

    ghost is_open = { λ r. r.runs };
}

impl<'a> Source for AppReach<'a> {
    fn read(&mut self, buf: &mut [u8]) -> Result<usize, IoError> {
        if self.runs {
            self.link.read(buf)
        } else {
            Err(fail(&mut self.failed))
        }
    }
}

impl<'a> Sink for AppReach<'a> {
    fn write(&mut self, piece: &[u8]) -> Result<usize, IoError> {
        if self.runs {
            self.link.write(piece)
        } else {
            Err(fail(&mut self.failed))
        }
    }
}

impl<'a> Link for AppReach<'a> {
    fn await_next(&mut self, _what: Awaited) {}
}

impl<'a> Reach for AppReach<'a> {
    ghost use Rattle.std.specs.Prelude.{refl};

    fn begin(&mut self, _alloc: Global, _asked: &TalkAsked<'_>) -> Result<bool, IoError> {
        self.link.clear();
        self.runs = true;
        Ok(true)
    }

    fn finish(&mut self, _keep: bool) {
        self.link.clear();
        self.runs = false;
    }

    /// It has no idle link.
    fn rest(&mut self, _alloc: Global, _now: u64) -> Result<(), NoMemory> {
        Ok(())
    }

    ghost open_in_talk = { λ r. refl };
}
