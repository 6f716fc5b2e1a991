//! `container`: links served as a servlet container does.
ghost use Rattle.std.specs.Prelude.{◌≡◌, ◌≤◌, length, None};
ghost use Rattle.jk_cli.specs.declared.ranges.TheConstants.{MOST_ROUTE_BYTES};
ghost use Rattle.jk_server.specs.Commands.{ContainsAsked, WorksContainer};

use crate::orders::ends::{CommandEnd, NO_MEMORY, end_by, end_of_container};
use ajp_container::{AppConfig, ContainerRun, serve_doors};
use gear_parts::{GearOf, GearOrder, ToldWorld, World, give_back, take_gears};
use jk_io::{Bytes, Door, NoMemory};
use std::alloc::Global;
use std::marker::Brand;
use std::sync::Wait;
use std::thread::Threads;

/// The greatest packet of the container, in bytes.
const PACKET_BYTES: u32 = 8_192;

/// What `container` is asked for.
#[derive(Clone, Copy)]
pub struct ContainerOrder<'a> {
    pub route: &'a Bytes,
    /// How many workers there are, each with a gear.
    pub threads: u32,
    /// What the gears are for. They have no site, and keep no journal.
    pub asked: GearOrder<'a>,
}

/// Serves links by a worker for each gear, and gives the gears back.
fn contain_links<W: World, R: Threads + Wait + Sync>(
    rt: &R,
    alloc: Global,
    app: &AppConfig,
    order: &ContainerOrder<'_>,
    world: &mut W,
) -> CommandEnd<Brand>
where
    <W::D as Door>::L: Send,
    requires none { (order.now.asked.journal ≡ None) × (order.now.asked.cfg ≡ None) }
    ensures { WorksContainer ⟦<W as ToldWorld>⟧.told
        app.now order.now.threads order.now.asked world.old world.new result }
{
    let gears = match take_gears(alloc, world, order.threads, &order.asked) {
        Ok(gears) => gears,
        Err(error) => return end_by(error),
    };
    match serve_doors::<W::D, GearOf<W>, R>(rt, alloc, app, gears) {
        Ok(ContainerRun { workers, back }) => {
            give_back(world, back);
            end_of_container(workers.as_slice())
        }
        Err(gears) => {
            give_back(world, gears);
            CommandEnd::Status(NO_MEMORY)
        }
    }
}

/// `container`, with this route.
pub fn contain<W: World, R: Threads + Wait + Sync>(
    rt: &R,
    alloc: Global,
    order: ContainerOrder<'_>,
    world: &mut W,
) -> CommandEnd<Brand>
where
    <W::D as Door>::L: Send,
    requires none { (order.asked.journal ≡ None) × (order.asked.cfg ≡ None) }
    requires short { length order.route.now ≤ MOST_ROUTE_BYTES }
    ensures contains { ContainsAsked ⟦<W as ToldWorld>⟧.told
        order.entry world.old world.new result }
{
    match order.route.copy() {
        Ok(route) => {
            let app = AppConfig {
                route,
                secret: None,
                packet: PACKET_BYTES,
            };
            contain_links(rt, alloc, &app, &order, world)
        }
        Err(NoMemory) => CommandEnd::Status(NO_MEMORY),
    }
}
