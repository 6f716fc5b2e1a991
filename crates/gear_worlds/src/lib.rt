//! Worlds that hand out gears for the workers of `serve` and `container`, and get them back.
//!
//! A gear is a door, a dial, a tape, a clock, a shelf and maybe a log. A world in memory tells what it handed out and
//! what came back; the real one is made of sockets, files and the system's clock, and tells nothing of contents.
//! Source: own rules: all gears of the real world accept from one socket; a segment goes into a new file named after its balancer
//! and its first number (docs/FORMATS.md, "Journal text").
//! Contract: the trait `World` of gear_parts; `MemWorld`'s own clauses; `segment_file`, the laws of `laws`, and `keep` of `FileShelf`, by which a
//! segment is put into just its own new file.
//! Read first: src/world.rt of gear_parts, then specs/Worlds.antt and specs/Files.antt.
//! Errors: `IoError`; a call fails only where the world's count of faults rose in it. `Trouble` says it to a person.
#![tactic(auto)]

mod descriptors;
mod file_log;
mod journal_files;
pub mod laws;
mod mem_plan;
mod mem_world;
mod new_files;
mod notice;
mod opening;
mod real_door;
mod real_times;
mod real_world;
mod segment_turns;
mod shelves;
mod tries;
mod trouble;
mod unkept;

pub use file_log::FileLog;
pub use gear_parts::{Gear, World};
pub use journal_files::{FIRST_DIGITS, SegmentFile, segment_file};
pub use mem_plan::{MemGear, MemPlan, MemPlanList};
pub use mem_world::MemWorld;
pub use new_files::{NewFiles, RealNewFiles};
pub use real_door::RealDoor;
pub use real_times::RealTimes;
pub use real_world::{RealGear, RealWorld};
pub use segment_turns::SegmentTurns;
pub use shelves::{DropShelf, FileShelf, RealShelf};
pub use trouble::Trouble;
