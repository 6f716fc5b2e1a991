//! Logs taken of a world, one for each worker, and given to its gears.
ghost use Rattle.std.specs.Prelude.{◌≡◌, ◌+◌, ◌<◌, ◌≤◌, [], Some, length, map, vec_capacity, vec_len, IfOk, IsOk, OnErr, OnOk};
ghost use Rattle.std.specs.List.{All};
ghost use Rattle.std.specs.Option.{option_copied};
ghost use Rattle.jk_io.specs.Told.{HasCause};
ghost use Rattle.gear_parts.specs.Gears.{AreGiven, TakesLog, unlogged};
ghost use Rattle.gear_parts.specs.Putting.{PutsOne};
ghost use Rattle.gear_parts.specs.Steps.{CountsFailure};
ghost use Rattle.gear_parts.specs.Wants.{AreSuited};
ghost use Rattle.gear_parts.specs.Worlds.{HandsAndTakes, world_side};

use crate::gears::{GearOf, give_back};
use crate::world::{Gear, World};
use jk_io::{Bytes, IoError};
use std::alloc::Global;
use std::vec::IntoIter;

/// Takes the log of worker `number` in this directory, and adds it at the end.
fn take_log<W: World>(
    alloc: Global,
    world: &mut W,
    dir: &Bytes,
    number: u32,
    logs: &mut Vec<W::O>,
) -> Result<(), IoError>
    requires room { vec_len logs.old < vec_capacity logs.old }
    ensures ok { OnOk result (PutsOne (W.is_log dir.now number) logs.old.items logs.new.items) }
    ensures room { OnOk result ((vec_len logs.new ≡ vec_len logs.old + 1) × (vec_capacity logs.new ≡ vec_capacity logs.old)) }
    ensures same { (W.handed world.new ≡ W.handed world.old) × (W.came_back world.new ≡ W.came_back world.old) × (W.out world.new ≡ W.out world.old) }
    ensures counts { CountsFailure (W.faults world.old) (W.faults world.new) result }
    ensures unshown { W.shown world.new ≡ W.shown world.old }
{
    let log = world.log(alloc, dir, number)?;
    logs.push_reserved(log);
    Ok(())
}

/// Takes a log for each worker, until one is refused.
fn fill_logs<W: World>(
    alloc: Global,
    world: &mut W,
    threads: u32,
    dir: &Bytes,
    logs: &mut Vec<W::O>,
) -> Result<(), IoError>
    requires none { vec_len logs.old ≡ 0 }
    requires room { threads ≤ vec_capacity logs.old }
    ensures suited { OnOk result (AreSuited (W.is_log dir.now) 0 logs.new.items) }
    ensures count { OnOk result (vec_len logs.new ≡ threads) }
    ensures same { (W.handed world.new ≡ W.handed world.old) × (W.came_back world.new ≡ W.came_back world.old) × (W.out world.new ≡ W.out world.old) }
    ensures counts { CountsFailure (W.faults world.old) (W.faults world.new) result }
    ensures unshown { W.shown world.new ≡ W.shown world.old }
{
    'logs: for number in 0..threads {
        take_log(alloc, world, dir, number, logs)?;
    }
    Ok(())
}

/// Takes a log for each worker.
fn logs_for<W: World>(
    alloc: Global,
    world: &mut W,
    threads: u32,
    dir: &Bytes,
) -> Result<Vec<W::O>, IoError>
    ensures suited { IfOk result (λ logs. AreSuited (W.is_log dir.now) 0 logs.items) }
    ensures count { IfOk result (λ logs. vec_len logs ≡ threads) }
    ensures same { (W.handed world.new ≡ W.handed world.old) × (W.came_back world.new ≡ W.came_back world.old) × (W.out world.new ≡ W.out world.old) }
    ensures counts { CountsFailure (W.faults world.old) (W.faults world.new) result }
    ensures unshown { W.shown world.new ≡ W.shown world.old }
{
    let mut logs = Vec::with_capacity(alloc, threads as usize)?;
    match fill_logs(alloc, world, threads, dir, &mut logs) {
        Ok(()) => Ok(logs),
        Err(error) => Err(error),
    }
}

/// Gives a gear the next log.
fn give_log<D, G, T, K, S, O: Drop>(gear: &mut Gear<D, G, T, K, S, O>, logs: &mut IntoIter<O>)
    requires more { 0 < length logs.old.rest.items }
    ensures { TakesLog gear.old gear.new logs.old.rest.items logs.new.rest.items }
{
    let Some(log) = logs.next() else {
        unreachable!()
    };
    gear.log = Some(log);
}

/// Gives each gear the next log.
fn give_logs<D, G, T, K, S, O: Drop>(gears: &mut [Gear<D, G, T, K, S, O>], logs: &mut IntoIter<O>)
    requires paired { length gears.old ≡ length logs.old.rest.items }
    ensures rest { map unlogged gears.new ≡ map unlogged gears.old }
    ensures logs { map (λ g. g.log) gears.new ≡ map Some logs.old.rest.items }
{
    for gear in gears.iter_mut() {
        give_log(gear, logs);
    }
}

/// Gives each gear its log.
fn with_logs<D: Drop, G: Drop, T: Drop, K: Drop, S: Drop, O: Drop>(
    gears: Vec<Gear<D, G, T, K, S, O>>,
    logs: Vec<O>,
) -> Vec<Gear<D, G, T, K, S, O>>
    requires paired { vec_len gears ≡ vec_len logs }
    ensures rest { map unlogged result.items ≡ map unlogged gears.items }
    ensures logs { map (λ g. g.log) result.items ≡ map Some logs.items }
{
    let mut gears = gears;
    let mut logs = logs.into_iter();
    give_logs(gears.as_mut_slice(), &mut logs);
    gears
}

/// Gives each gear the log of its worker, the first of which has the number 0, where a directory is given for them. Where one is
/// refused, all gears are given back as they were.
pub fn log_gears<W: World>(
    alloc: Global,
    world: &mut W,
    threads: u32,
    dir: Option<&Bytes>,
    gears: Vec<GearOf<W>>,
) -> Result<Vec<GearOf<W>>, IoError>
    requires count { vec_len gears ≡ threads }
    requires out { vec_len gears ≤ W.out world.old }
    ensures given { IfOk result (λ given. AreGiven W.is_log (option_copied dir.entry) gears.items given.items) }
    ensures len { IfOk result (λ given. vec_len given ≡ threads) }
    ensures idle { All (λ g. W.T.is_idle g.tape) gears.items → IfOk result (λ given. All (λ g. W.T.is_idle g.tape) given.items) }
    ensures same { OnOk result ((W.handed world.new ≡ W.handed world.old) × (W.came_back world.new ≡ W.came_back world.old) × (W.out world.new ≡ W.out world.old)) }
    ensures refused { OnErr result (let at = world_side W.World in HandsAndTakes (at world.old) (at world.new) [] gears.items) }
    ensures cause { HasCause (W.faults world.old) (W.faults world.new) result }
    ensures steady { IsOk result → W.faults world.new ≡ W.faults world.old }
    ensures unshown { W.shown world.new ≡ W.shown world.old }
{
    let Some(dir) = dir else {
        return Ok(gears);
    };
    match logs_for(alloc, world, threads, dir) {
        Ok(logs) => Ok(with_logs(gears, logs)),
        Err(error) => {
            give_back(world, gears);
            Err(error)
        }
    }
}
