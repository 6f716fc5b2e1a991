//! How the watch looks at the links of one member.
ghost use Rattle.std.specs.Prelude.{◌≡◌, ◌<◌};
ghost use Rattle.conn_pool.specs.Looks.{is_pinged, limit_of, ping_of, set_seconds};

use crate::watch::Watch;
use site_config::Endpoint;

fn set_seconds(seconds: Option<u64>) -> u64
    ensures { result ≡ set_seconds seconds }
{
    seconds.unwrap_or(0)
}

/// The most looks that a link of this member may stay idle for.
pub(crate) fn limit_of(watch: &Watch, end: &Endpoint) -> u32
    requires { 0 < watch.now.every }
    ensures { result ≡ limit_of watch.now end.now }
{
    let seconds = set_seconds(end.limits.connection_pool_timeout);
    if seconds == 0 {
        return watch.limit;
    }
    (seconds / watch.every).min(u64::from(u32::MAX)) as u32
}

fn is_pinged(end: &Endpoint, last: u64, now: u64) -> bool
    ensures { result ≡ is_pinged end.now last now }
{
    let interval = set_seconds(end.limits.connection_ping_interval);
    if interval == 0 {
        return end.ping_idle;
    }
    last / interval < now / interval
}

/// The milliseconds for the answer of a link of this member, where it is pinged at a look now after one at `last`.
pub(crate) fn ping_of(end: &Endpoint, last: u64, now: u64) -> Option<u64>
    ensures { result ≡ ping_of end.now last now }
{
    if is_pinged(end, last, now) {
        Some(end.limits.each_pong())
    } else {
        None
    }
}
