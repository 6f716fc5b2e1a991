//! Gears: what each worker uses of the outside, taken of a world, made into parts and back, and given back.
//!
//! A gear is a door, a dial, a tape, a clock, a shelf and maybe a log. A connector's worker works with a part, which has a desk
//! in the place of the shelf, and puts the rows of its requests into the log; a container's worker uses the door alone.
//! Source: own rules for what a worker uses, and for the shelf that gets the rest of a journal (docs/DECISIONS.md, "Closing").
//! Contract: the trait `World`; `take_gears`, clauses `taken`, `made`, `suited` and `refused`, and `give_back`, clause `came_back`;
//! `first_moment`, clauses `given` and `started`; `part_of`, and `gear_of`, clauses `gear` and `desk`;
//! `log_gears`, clauses `given` and `refused`;
//! `keep_on_first`, clauses `kept` and `front`. Read first: src/world.rt, specs/Gears.antt,
//! specs/Worlds.antt; then specs/Starts.antt, specs/GearParts.antt, specs/Cuts.antt and specs/Containers.antt.
//! Errors: `IoError` of the world or a shelf.
#![tactic(auto)]

mod common;
mod container;
mod gear_log;
mod gears;
mod keeping;
mod logs;
mod order;
mod part;
mod parts;
mod starting;
mod told_world;
mod worker_log;
mod world;

pub use common::Common;
pub use gear_log::GearLog;
pub use gears::{GearOf, give_back, take_gears};
pub use keeping::keep_on_first;
pub use logs::log_gears;
pub use order::GearOrder;
pub use part::Part;
pub use parts::{gear_of, part_of};
pub use starting::first_moment;
pub use told_world::ToldWorld;
pub use worker_log::WorkerLog;
pub use world::{Gear, World};
