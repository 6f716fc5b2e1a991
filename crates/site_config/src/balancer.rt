//! A balancer of the configuration.
ghost use Rattle.std.specs.Prelude.{◌≡◌, ◌<◌, length};

use crate::endpoint::EndList;
use jk_io::{Bytes, ListOf};
use lb_model::LbConfig;

/// A balancer: an lb worker, or an ajp13 worker that is listed itself.
#[derive(Drop)]
pub struct Lb {
    pub name: Bytes,
    pub book: LbConfig,
    /// How each member is reached, by its index.
    pub ends: EndList,
    /// The cookie that holds a session's id, at least one byte.
    pub cookie: Bytes,
    /// What stands before a session's id in a path, at least one byte.
    pub path: Bytes,
    pub ghost paired: { length ends ≡ length book.members },
    pub ghost cookie_filled: { 0 < length cookie },
    pub ghost path_filled: { 0 < length path },
}

/// Balancers, by index.
pub type LbList = ListOf<Lb>;
