//! Gears taken of a world, one for each worker, and given back.
ghost use Rattle.std.specs.Prelude.{◌≡◌, ◌+◌, ◌<◌, ◌≤◌, [], length, vec_capacity, vec_len, IfOk, IsOk, OnErr, OnOk};
ghost use Rattle.std.specs.List.{All};
ghost use Rattle.std.specs.Option.{option_copied};
ghost use Rattle.jk_io.specs.Told.{HasCause, appended};
ghost use Rattle.gear_parts.specs.Steps.{CountsFailure, TakesGear, TakesGears};
ghost use Rattle.gear_parts.specs.Wants.{AreSuited, wants_of};
ghost use Rattle.gear_parts.specs.Worlds.{gear_told, HandsAndTakes, HandsNone, IsMade, RefusesGear, world_side};

use crate::order::GearOrder;
use crate::world::{Gear, World};
use jk_io::IoError;
use std::alloc::Global;
use std::vec::IntoIter;

/// A gear of this world.
pub type GearOf<W> = Gear<
    <W as World>::D,
    <W as World>::G,
    <W as World>::T,
    <W as World>::K,
    <W as World>::S,
    <W as World>::O,
>;

/// Takes the gear of worker `number`, and adds it at the end.
fn take_gear<W: World>(
    alloc: Global,
    world: &mut W,
    number: u32,
    asked: &GearOrder<'_>,
    gears: &mut Vec<GearOf<W>>,
) -> Result<(), IoError>
    requires room { vec_len gears.old < vec_capacity gears.old }
    ensures ok { OnOk result (TakesGear W.World W.D.Door W.T.Tape W.K.Clock number asked.now
        world.old world.new gears.old.items gears.new.items) }
    ensures room { OnOk result ((vec_len gears.new ≡ vec_len gears.old + 1) × (vec_capacity gears.new ≡ vec_capacity gears.old)) }
    ensures err { OnErr result (let at = world_side W.World in HandsNone (at world.old) (at world.new)) }
    ensures same { OnErr result (gears.new.items ≡ gears.old.items) }
    ensures counts { CountsFailure (W.faults world.old) (W.faults world.new) result }
    ensures unshown { W.shown world.new ≡ W.shown world.old }
{
    let gear = world.gear(alloc, number, asked)?;
    gears.push_reserved(gear);
    Ok(())
}

/// Takes a gear for each worker, until one is refused.
fn fill_gears<W: World>(
    alloc: Global,
    world: &mut W,
    threads: u32,
    asked: &GearOrder<'_>,
    gears: &mut Vec<GearOf<W>>,
) -> Result<(), IoError>
    requires none { vec_len gears.old ≡ 0 }
    requires room { threads ≤ vec_capacity gears.old }
    ensures taken { TakesGears W.World W.D.Door W.T.Tape W.K.Clock asked.now world.old world.new gears.new.items }
    ensures count { OnOk result (vec_len gears.new ≡ threads) }
    ensures fewer { OnErr result (vec_len gears.new < threads) }
    ensures counts { CountsFailure (W.faults world.old) (W.faults world.new) result }
    ensures unshown { W.shown world.new ≡ W.shown world.old }
{
    'gears: for number in 0..threads {
        take_gear(alloc, world, number, asked, gears)?;
    }
    Ok(())
}

/// Takes a gear for each worker. Where one is refused, those before it are given back.
pub fn take_gears<W: World>(
    alloc: Global,
    world: &mut W,
    threads: u32,
    asked: &GearOrder<'_>,
) -> Result<Vec<GearOf<W>>, IoError>
    ensures taken { IfOk result (λ gears. let at = world_side W.World in
        HandsAndTakes (at world.old) (at world.new) gears.items []) }
    ensures count { IfOk result (λ gears. vec_len gears ≡ threads) }
    ensures made { IfOk result (λ gears. let at = gear_told W.D.Door W.T.Tape W.K.Clock in
        All (λ g. IsMade asked.now.clients (at g)) gears.items) }
    ensures idle { IfOk result (λ gears. All (λ g. W.T.is_idle g.tape) gears.items) }
    ensures suited { IfOk result (λ gears. AreSuited (λ number. W.suits number (wants_of asked.now) (option_copied asked.now.cfg)) 0 gears.items) }
    ensures refused { OnErr result (let at = world_side W.World in RefusesGear threads (at world.old) (at world.new)) }
    ensures cause { HasCause (W.faults world.old) (W.faults world.new) result }
    ensures steady { IsOk result → W.faults world.new ≡ W.faults world.old }
    ensures unshown { W.shown world.new ≡ W.shown world.old }
{
    let mut gears = Vec::with_capacity(alloc, threads as usize)?;
    match fill_gears(alloc, world, threads, asked, &mut gears) {
        Ok(()) => Ok(gears),
        Err(error) => {
            give_back(world, gears);
            Err(error)
        }
    }
}

/// Gives gears back, in order.
pub fn give_back<W: World>(world: &mut W, gears: Vec<GearOf<W>>)
    requires out { vec_len gears ≤ W.out world.old }
    ensures came_back { W.came_back world.new ≡ appended (W.came_back world.old) gears.items }
    ensures fewer { W.out world.new + vec_len gears ≡ W.out world.old }
    ensures same { (W.handed world.new ≡ W.handed world.old) × (W.faults world.new ≡ W.faults world.old) }
    ensures unshown { W.shown world.new ≡ W.shown world.old }
{
    let mut gears = gears.into_iter();
    give_each(world, &mut gears);
}

/// As `give_back`, over gears that the caller lends.
fn give_each<W: World>(world: &mut W, gears: &mut IntoIter<GearOf<W>>)
    requires out { length gears.old.rest.items ≤ W.out world.old }
    ensures came_back { W.came_back world.new ≡ appended (W.came_back world.old) gears.old.rest.items }
    ensures fewer { W.out world.new + length gears.old.rest.items ≡ W.out world.old }
    ensures same { (W.handed world.new ≡ W.handed world.old) × (W.faults world.new ≡ W.faults world.old) }
    ensures unshown { W.shown world.new ≡ W.shown world.old }
{
    'gears: while let Some(gear) = gears.next() {
        world.back(gear);
    }
}
