//! How a member is reached and used.
ghost use Rattle.std.specs.Prelude.{◌≤◌};

use crate::limits::MemberLimits;
use jk_io::{Bytes, ListOf};
use lb_model::FailList;

/// How requests reach a member, and what its talks do.
#[derive(Drop)]
pub struct Endpoint {
    pub host: Bytes,
    /// 1 to 65,535.
    pub port: u16,
    /// Talks that may run on the member for one request, 1 to 10.
    pub retries: u32,
    /// The greatest packet, 8,192 to 65,536 bytes.
    pub packet: u32,
    pub secret: Option<Bytes>,
    /// The sum of `recovery_options`, 0 to 31.
    pub recovery: u8,
    /// Whether a newly dialled link is pinged first.
    pub ping_new: bool,
    /// Whether each request is preceded by a ping.
    pub ping_each: bool,
    /// Whether idle links are pinged.
    pub ping_idle: bool,
    /// The statuses that count as the member's failure.
    pub fail_on: FailList,
    /// How long its links are waited for.
    pub limits: MemberLimits,
    pub ghost port_above: { 1 ≤ port },
    pub ghost retries_above: { 1 ≤ retries },
    pub ghost retries_below: { retries ≤ 10 },
    pub ghost packet_above: { 8192 ≤ packet },
    pub ghost packet_below: { packet ≤ 65536 },
    pub ghost recovery_below: { recovery ≤ 31 },
}

/// One for each member, by index.
pub type EndList = ListOf<Endpoint>;
