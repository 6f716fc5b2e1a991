//! The moment at which the gears of a run begin.
ghost use Rattle.std.specs.Prelude.{◌≡◌, ◌<◌, length, map, vec_len};
ghost use Rattle.std.specs.List.{All};
ghost use Rattle.jk_io.specs.Doors.{side};
ghost use Rattle.gear_parts.specs.Gears.{gear_side};
ghost use Rattle.gear_parts.specs.Starts.{AreStarted, GivesFirst};

use crate::world::Gear;
use conn_pool::Tape;
use jk_io::{Clock, Door};

/// The moment that the first gear's clock gives.
pub fn first_moment<D: Door, G, T: Tape, K: Clock, S, O>(
    gears: &mut Vec<Gear<D, G, T, K, S, O>>,
) -> u64
    requires some { 0 < vec_len gears.old }
    ensures started { let at = gear_side (side D.coming D.left D.faults) T.talks K.answers in
        AreStarted (map at gears.old.items) (map at gears.new.items) }
    ensures given { let at = gear_side (side D.coming D.left D.faults) T.talks K.answers in
        GivesFirst result (map at gears.old.items) (map at gears.new.items) }
    ensures idle { All (λ g. T.is_idle g.tape) gears.old.items → All (λ g. T.is_idle g.tape) gears.new.items }
    ensures len { vec_len gears.new ≡ vec_len gears.old }
{
    moment_of(gears.as_mut_slice())
}

/// As `first_moment`, over gears that are lent.
fn moment_of<D: Door, G, T: Tape, K: Clock, S, O>(gears: &mut [Gear<D, G, T, K, S, O>]) -> u64
    requires some { 0 < length gears.old }
    ensures started { let at = gear_side (side D.coming D.left D.faults) T.talks K.answers in
        AreStarted (map at gears.old) (map at gears.new) }
    ensures given { let at = gear_side (side D.coming D.left D.faults) T.talks K.answers in
        GivesFirst result (map at gears.old) (map at gears.new) }
    ensures idle { All (λ g. T.is_idle g.tape) gears.old → All (λ g. T.is_idle g.tape) gears.new }
    ensures len { length gears.new ≡ length gears.old }
{
    gears[0].clock.now()
}
