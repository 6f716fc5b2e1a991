//! The world: what hands out gears and takes them back.
ghost use Rattle.std.specs.Prelude.{◌≡◌, ◌+◌, ◌<◌, ◌≤◌, ℕ, List, Option, Some, None, [], ◌∷◌, length, IfOk, IfSome, IsOk, IsSome, OnErr, OnOk};
ghost use Rattle.jk_io.specs.Told.{HasCause, IsEmpty, appended};

use crate::order::GearOrder;
use conn_pool::Tape;
use jk_io::{Bytes, Clock, Dial, Door, IoError};
use lb_shared::Shelf;
use request_log::Timed;
use site_reports::AcceptedSite;
use std::alloc::Global;

/// What one worker uses of the outside. A container's worker uses the door alone.
#[derive(Drop)]
pub struct Gear<D, G, T, K, S, O> {
    /// Where its clients come from, and where their links are left.
    pub door: D,
    /// What makes links to members.
    pub dial: G,
    /// Where its talks with members are noted.
    pub tape: T,
    /// What tells the moments, in whole seconds.
    pub clock: K,
    /// Where the segments of the journals go that its worker cuts.
    pub shelf: S,
    /// Where its requests are logged; none where they aren't.
    pub log: Option<O>,
}

/// What makes gears, and takes them back.
pub trait World {
    ghost use Rattle.std.specs.Prelude.{◌≡◌, ◌+◌, ◌<◌, ◌≤◌, ℕ, List, Option, Some, None, [], ◌∷◌, length, IfOk, IfSome, IsOk, IsSome, OnErr, OnOk};
    ghost use Rattle.jk_io.specs.Told.{HasCause, IsEmpty, appended};
    ghost use Rattle.std.specs.Option.{option_copied};
    ghost use Rattle.gear_parts.specs.Showings.{Showing};
    ghost use Rattle.gear_parts.specs.Wants.{GearWants, wants_of};
    ghost use Rattle.gear_parts.specs.declared.world.Gear.{Gear as AnyGear};
    ghost use Rattle.site_config.specs.declared.config.Config.{Config as AnyConfig};

    type D: Door + Drop + Send;

    type G: Dial + Drop + Send;

    type T: Tape + Drop + Send;

    type K: Clock + Drop + Send;

    type S: Shelf + Drop + Send;

    type O: Timed + Drop + Send;

    // the gears that were handed out, each as it was then
    ghost handed: { Self → Option (List (AnyGear Self.D Self.G Self.T Self.K Self.S Self.O)) };

    // the gears that came back, each as it was then
    ghost came_back: { Self → Option (List (AnyGear Self.D Self.G Self.T Self.K Self.S Self.O)) };

    // the sites that it was shown, in order, each with the gears that were handed out before; most worlds don't tell
    ghost shown: { Self → Option (List (Showing (AnyGear Self.D Self.G Self.T Self.K Self.S Self.O))) } = { λ _. None };

    // how many gears are out
    ghost out: { Self → ℕ };

    // a gear is what a worker of this number wants, over this configuration; where it isn't told, each may be
    ghost suits: { ℕ → GearWants → Option AnyConfig → AnyGear Self.D Self.G Self.T Self.K Self.S Self.O → Type 0 } = { λ _ _ _ _. Unit {0} };

    // a log is that of the worker of this number in this directory; where it isn't told, each may be
    ghost is_log: { List ℕ → ℕ → Self.O → Type 0 } = { λ _ _ _. Unit {0} };

    // how many calls failed
    ghost faults: { Self → ℕ };

    /// Is shown the site that is to be served, before a gear is asked for. Nothing is handed out or taken back by it, and no
    /// call fails.
    fn show_site(&mut self, alloc: Global, site: &AcceptedSite)
        ensures shown { shown self.new ≡ appended (shown self.old) (record { site = site.now; handed = handed self.old } ∷ []) }
        ensures same { (handed self.new ≡ handed self.old) × (came_back self.new ≡ came_back self.old) × (out self.new ≡ out self.old) }
        ensures steady { faults self.new ≡ faults self.old };

    /// Makes what worker `number`, from 0, uses. Its door takes clients at the order's address, by its limits, and has at most
    /// as many to come as the order says. A journal is kept in the order's directory, by the names of the site's balancers.
    fn gear(
        &mut self,
        alloc: Global,
        number: u32,
        asked: &GearOrder<'_>,
    ) -> Result<Gear<Self::D, Self::G, Self::T, Self::K, Self::S, Self::O>, IoError>
        requires named { IsSome asked.now.journal → IsSome asked.now.cfg }
        ensures handed { IfOk result (λ gear. handed self.new ≡ appended (handed self.old) (gear ∷ [])) }
        ensures one_more { OnOk result (out self.new ≡ out self.old + 1) }
        ensures few { IfOk result (λ gear. IfSome asked.now.clients (λ most. IfSome (Self.D.coming gear.door) (λ coming. length coming ≤ most))) }

        // It is what was asked for.
        ensures suited { IfOk result (λ gear. suits number (wants_of asked.now) (option_copied asked.now.cfg) gear) }

        // Nothing was done with it: no link was left at its door, and no talk runs or was noted.
        ensures none_left { IfOk result (λ gear. IsEmpty (Self.D.left gear.door)) }
        ensures idle { IfOk result (λ gear. Self.T.is_idle gear.tape) }
        ensures no_talk { IfOk result (λ gear. IsEmpty (Self.T.talks gear.tape)) }
        ensures unlogged { IfOk result (λ gear. gear.log ≡ None) }

        ensures err { OnErr result ((handed self.new ≡ handed self.old) × (out self.new ≡ out self.old)) }
        ensures same { came_back self.new ≡ came_back self.old }
        ensures unshown { shown self.new ≡ shown self.old }
        ensures cause { HasCause (faults self.old) (faults self.new) result }
        ensures steady { IsOk result → faults self.new ≡ faults self.old };

    /// Makes the log of worker `number`, from 0, in a directory.
    fn log(&mut self, alloc: Global, dir: &Bytes, number: u32) -> Result<Self::O, IoError>
        ensures made { IfOk result (λ log. is_log dir.now number log) }
        ensures same { (handed self.new ≡ handed self.old) × (came_back self.new ≡ came_back self.old) × (out self.new ≡ out self.old) }
        ensures unshown { shown self.new ≡ shown self.old }
        ensures cause { HasCause (faults self.old) (faults self.new) result }
        ensures steady { IsOk result → faults self.new ≡ faults self.old };

    /// Takes a gear back, at the end of those that came back. It takes no memory.
    fn back(&mut self, gear: Gear<Self::D, Self::G, Self::T, Self::K, Self::S, Self::O>)
        requires out { 0 < out self.old }
        ensures came_back { came_back self.new ≡ appended (came_back self.old) (gear ∷ []) }
        ensures one_less { out self.new + 1 ≡ out self.old }
        ensures same { (handed self.new ≡ handed self.old) × (faults self.new ≡ faults self.old) }
        ensures unshown { shown self.new ≡ shown self.old };
}
