//! A member's time limits.
ghost use Rattle.site_config.specs.Entries.{as_properties};
ghost use Rattle.site_workers.specs.Rows.{property_at};
ghost use Rattle.site_workers.specs.Settings.{AreLimits};

use crate::row::Row;
use crate::settings::{number, truth};
use site_config::{Directive, MemberLimits, PropertyLine};

/// The time limits that the worker of this row sets.
pub(crate) fn limits_of(entries: &[PropertyLine<'_>], row: &Row) -> MemberLimits
    ensures { AreLimits (property_at (as_properties entries.now) row.now) result }
{
    MemberLimits {
        socket_connect_timeout: number(entries, row, Directive::DialTimeout),
        connect_timeout: number(entries, row, Directive::ConnectTimeout),
        prepost_timeout: number(entries, row, Directive::PrepostTimeout),
        ping_timeout: number(entries, row, Directive::PingTimeout),
        socket_timeout: number(entries, row, Directive::SocketTimeout),
        reply_timeout: number(entries, row, Directive::ReplyTimeout),
        socket_keepalive: truth(entries, row, Directive::Keepalive),
        connection_pool_timeout: number(entries, row, Directive::PoolTimeout),
        connection_ping_interval: number(entries, row, Directive::PingInterval),
    }
}
