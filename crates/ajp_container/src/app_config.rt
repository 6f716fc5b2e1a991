//! The settings of the container.
ghost use Rattle.std.specs.Prelude.{◌≤◌, length};

use jk_io::Bytes;

/// The settings by which the container answers.
#[derive(Drop)]
pub struct AppConfig {
    /// Its name among the members of a balancer, at most 1,024 bytes.
    pub route: Bytes,
    /// What a request has to bring along, where the container asks for it.
    pub secret: Option<Bytes>,
    /// The greatest packet either way, in bytes: 8,192 to 65,536.
    pub packet: u32,
    pub ghost packet_at_least: { 8192 ≤ packet },
    pub ghost packet_at_most: { packet ≤ 65536 },
    pub ghost short_route: { length route ≤ 1024 },
}
