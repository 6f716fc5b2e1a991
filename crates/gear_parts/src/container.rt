//! A gear as what a container's worker serves at: it uses the gear's door alone.

use crate::world::Gear;
use ajp_container::{AppConfig, ContainerWorker, HasDoor, serve_links};
use jk_io::Door;
use std::alloc::Global;
use std::sync::Wait;

impl<D: Door, G, T, K, S, O> HasDoor<D> for Gear<D, G, T, K, S, O> {
    ghost door = { λ gear. gear.door };

    ghost with_door = { λ gear door. record gear { door = door } };

    fn serve_door<R: Wait>(&mut self, rt: &R, alloc: Global, app: &AppConfig) -> ContainerWorker {
        serve_links(rt, alloc, app, &mut self.door)
    }
}
