//! A balancer as its journal's text shows it.
use jk_io::Bytes;
use lb_model::{Method, View};

/// A balancer as its journal shows it.
#[derive(Drop)]
pub struct FollowView {
    pub name: Bytes,
    /// Whether it is an ajp13 worker that is listed itself.
    pub direct: bool,
    pub method: Method,
    pub view: View,
}
