//! A world that says on standard error, before a site is served, which lines of its files have no effect.
ghost use Rattle.std.specs.Prelude.{◌≡◌, ◌+◌, ◌<◌, [], ◌∷◌, None, Some, IfOk, IfSome, IsOkAnd};
ghost use Rattle.jk_io.specs.Told.{appended};
ghost use Rattle.jk_commands.specs.Orders.{site_names};

use gear_parts::{GearOf, GearOrder, World};
use jk_cli::{Order, WordsError};
use jk_io::{Bytes, IoError};
use remarks::{MarkedSink, RemarkOut, SiteNames, effects_on};
use site_reports::AcceptedSite;
use std::alloc::Global;
use std::io::Write;

/// The names of the files of a site that is to be served, and where it is said what in them has no effect.
#[derive(Drop)]
pub struct SiteTeller<'n, E: Write + Drop> {
    names: SiteNames<'n>,
    err: E,
}

impl<'n, E: Write + Drop> SiteTeller<'n, E> {
    /// For the files of this order; none where it serves no site.
    pub fn of(asked: &'n Result<Order, WordsError>, err: E) -> Option<SiteTeller<'n, E>>
        ensures none { result ≡ None → IfOk asked.now (λ o. site_names o ≡ None) }
        ensures some { IfSome result (λ teller. IsOkAnd asked.now (λ o.
            site_names o ≡ Some (teller.names.workers.now, teller.names.map.now))) }
    {
        let Ok(Order::Serve(order)) = asked else {
            return None;
        };
        let names = SiteNames {
            workers: order.workers.as_slice(),
            map: order.map.as_slice(),
        };
        Some(SiteTeller { names, err })
    }

    /// Says which lines have no effect, as `config` does, a line each after `jkd: `. A write that fails ends it and changes
    /// nothing, and so does want of memory.
    fn tell(self, alloc: Global, site: &AcceptedSite) {
        let SiteTeller { names, err } = self;
        let mut out = RemarkOut::new(alloc, MarkedSink::new(err));
        let _ = effects_on(alloc, &mut out, &names, site);
        let _ = out.finish();
    }
}

/// A world as the one within, which tells once of the site that it is shown.
#[derive(Drop)]
pub struct TellingWorld<'n, W: World + Drop, E: Write + Drop> {
    world: W,
    teller: Option<SiteTeller<'n, E>>,
}

impl<'n, W: World + Drop, E: Write + Drop> TellingWorld<'n, W, E> {
    pub fn new(world: W, teller: Option<SiteTeller<'n, E>>) -> TellingWorld<'n, W, E>
        ensures { (result.world ≡ world) × (result.teller ≡ teller.entry) }
    {
        TellingWorld { world, teller }
    }

    /// The world within.
    pub fn into_world(self) -> W
        ensures { result ≡ self.entry.world }
    {
        let TellingWorld { world, teller: _ } = self;
        world
    }
}

impl<'n, W: World + Drop, E: Write + Drop> World for TellingWorld<'n, W, E> {
    type D = W::D;

    type G = W::G;

    type T = W::T;

    type K = W::K;

    type S = W::S;

    type O = W::O;

    ghost handed = { λ w. W.handed w.world };

    ghost came_back = { λ w. W.came_back w.world };

    ghost out = { λ w. W.out w.world };

    ghost shown = { λ w. W.shown w.world };

    ghost suits = { λ number wanted cfg gear. W.suits number wanted cfg gear };

    ghost is_log = { λ dir number log. W.is_log dir number log };

    ghost faults = { λ w. W.faults w.world };

    fn show_site(&mut self, alloc: Global, site: &AcceptedSite) {
        if let Some(teller) = self.teller.take() {
            teller.tell(alloc, site);
        }
        self.world.show_site(alloc, site);
    }

    fn gear(
        &mut self,
        alloc: Global,
        number: u32,
        asked: &GearOrder<'_>,
    ) -> Result<GearOf<W>, IoError> {
        self.world.gear(alloc, number, asked)
    }

    fn log(&mut self, alloc: Global, dir: &Bytes, number: u32) -> Result<W::O, IoError> {
        self.world.log(alloc, dir, number)
    }

    fn back(&mut self, gear: GearOf<W>)
        requires out { 0 < W.out self.old.world }
        ensures came_back { W.came_back self.new.world ≡ appended (W.came_back self.old.world) (gear ∷ []) }
        ensures one_less { W.out self.new.world + 1 ≡ W.out self.old.world }
        ensures same { (W.handed self.new.world ≡ W.handed self.old.world) × (W.faults self.new.world ≡ W.faults self.old.world) }
        ensures unshown { W.shown self.new.world ≡ W.shown self.old.world }
    {
        self.world.back(gear);
    }
}
