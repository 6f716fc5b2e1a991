//! The line of a member's time limits.
ghost use Rattle.std.specs.Prelude.{◌≡◌, ◌++◌, OnOk};
ghost use Rattle.site_reports.specs.LimitLines.{limits_line, link_words, number_word, sets_some, sets_wait, truth_word, wait_words};

use crate::words::{flag, put_number, put_text};
use jk_io::{Bytes, NoMemory};
use site_config::MemberLimits;

/// Adds a word and a number that is set.
fn put_set_number(out: &mut Bytes, word: &[u8], value: Option<u64>) -> Result<(), NoMemory>
    ensures { OnOk result (out.new ≡ out.old ++ number_word word.now value) }
{
    match value {
        Some(n) => put_number(out, word, n),
        None => Ok(()),
    }
}

/// Adds a word and a truth value that is set.
fn put_set_truth(out: &mut Bytes, word: &[u8], value: Option<bool>) -> Result<(), NoMemory>
    ensures { OnOk result (out.new ≡ out.old ++ truth_word word.now value) }
{
    match value {
        Some(truth) => put_text(out, word, flag(truth)),
        None => Ok(()),
    }
}

fn put_waits(out: &mut Bytes, limits: &MemberLimits) -> Result<(), NoMemory>
    ensures { OnOk result (out.new ≡ out.old ++ wait_words limits.now) }
{
    put_set_number(
        out,
        b" socket_connect_timeout=",
        limits.socket_connect_timeout,
    )?;
    put_set_number(out, b" connect_timeout=", limits.connect_timeout)?;
    put_set_number(out, b" prepost_timeout=", limits.prepost_timeout)?;
    put_set_number(out, b" ping_timeout=", limits.ping_timeout)?;
    put_set_number(out, b" socket_timeout=", limits.socket_timeout)?;
    put_set_number(out, b" reply_timeout=", limits.reply_timeout)
}

fn put_links(out: &mut Bytes, limits: &MemberLimits) -> Result<(), NoMemory>
    ensures { OnOk result (out.new ≡ out.old ++ link_words limits.now) }
{
    put_set_truth(out, b" socket_keepalive=", limits.socket_keepalive)?;
    put_set_number(
        out,
        b" connection_pool_timeout=",
        limits.connection_pool_timeout,
    )?;
    put_set_number(
        out,
        b" connection_ping_interval=",
        limits.connection_ping_interval,
    )
}

fn sets_wait(limits: &MemberLimits) -> bool
    ensures { result ≡ sets_wait limits.now }
{
    limits.socket_connect_timeout.is_some()
        || limits.connect_timeout.is_some()
        || limits.prepost_timeout.is_some()
        || limits.ping_timeout.is_some()
        || limits.socket_timeout.is_some()
        || limits.reply_timeout.is_some()
}

fn sets_some(limits: &MemberLimits) -> bool
    ensures { result ≡ sets_some limits.now }
{
    sets_wait(limits)
        || limits.socket_keepalive.is_some()
        || limits.connection_pool_timeout.is_some()
        || limits.connection_ping_interval.is_some()
}

/// Adds the line of the time limits that a member sets, if it sets some.
pub(crate) fn put_limits(
    out: &mut Bytes,
    name: &[u8],
    limits: &MemberLimits,
) -> Result<(), NoMemory>
    ensures { OnOk result (out.new ≡ out.old ++ limits_line name.now limits.now) }
{
    if !sets_some(limits) {
        return Ok(());
    }
    put_text(out, b"limits ", name)?;
    put_waits(out, limits)?;
    put_links(out, limits)?;
    out.extend(b"\n")
}
