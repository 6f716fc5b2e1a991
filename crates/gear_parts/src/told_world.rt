//! All that a world and its parts tell, in one word of the clauses.
use crate::world::World;

/// A world with all that it and its parts tell: its gears, their doors, tapes, clocks, shelves and logs, and the clients' links.
pub trait ToldWorld: World {
    ghost use Rattle.gear_parts.specs.Worlds.{Tells as AllTold};
    ghost use Rattle.gear_parts.specs.declared.world.Gear.{Gear as AnyGear};

    ghost told: { AllTold Self (AnyGear Self.D Self.G Self.T Self.K Self.S Self.O) Self.D.L Self.S Self.O Self.D.L.Beside Self.O.Beside };
}

impl<W: World> ToldWorld for W {
    ghost use Rattle.gear_parts.specs.Worlds.{tells};

    ghost told = { tells W.World W.D.Door W.T.Tape W.K.Clock W.D.L.Meanings W.S.Shelf W.O.Meanings W.D.L.may_wait };
}
