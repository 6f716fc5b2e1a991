//! The lines of a configuration.
ghost use Rattle.std.specs.Prelude.{◌≡◌, ◌++◌, OnOk, slice_get};
ghost use Rattle.std.specs.List.{flat_map};
ghost use Rattle.site_reports.specs.ConfigText.{
  balancer_lines,
  config_text,
  ignored_at,
  ignored_line,
  kind_words,
  listed_lines,
  lb_words,
  member_lines,
  status_line,
  worker_lines,
};

use crate::member_line::put_member;
use crate::words::{flag, method_letter, put_number, put_text};
use jk_io::{Bytes, NoMemory};
use site_config::{Config, IgnoredList, Lb, Named, Status, behind_worker};

fn put_members(out: &mut Bytes, lb: &Lb) -> Result<(), NoMemory>
    ensures { OnOk result (out.new ≡ out.old ++ member_lines lb.now) }
{
    let members = lb.book.members.as_slice();
    for (member, end) in members.iter().zip(lb.ends.as_slice()) {
        put_member(out, members, member, end)?;
    }
    Ok(())
}

fn put_lb_words(out: &mut Bytes, lb: &Lb) -> Result<(), NoMemory>
    ensures { OnOk result (out.new ≡ out.old ++ lb_words lb.now) }
{
    put_text(out, b" lb ", method_letter(lb.book.method))?;
    put_text(out, b" sticky ", flag(lb.book.sticky))?;
    put_text(out, b" force ", flag(lb.book.force))?;
    put_number(out, b" recover ", lb.book.recover)?;
    put_text(out, b" cookie ", lb.cookie.as_slice())?;
    put_text(out, b" path ", lb.path.as_slice())?;
    out.extend(b"\n")
}

fn put_kind(out: &mut Bytes, lb: &Lb) -> Result<(), NoMemory>
    ensures { OnOk result (out.new ≡ out.old ++ kind_words lb.now) }
{
    if lb.book.direct {
        return out.extend(b" ajp13\n");
    }
    put_lb_words(out, lb)
}

fn put_balancer(out: &mut Bytes, lb: &Lb) -> Result<(), NoMemory>
    ensures { OnOk result (out.new ≡ out.old ++ balancer_lines lb.now) }
{
    put_text(out, b"worker ", lb.name.as_slice())?;
    put_kind(out, lb)?;
    put_members(out, lb)
}

fn put_status(out: &mut Bytes, status: &Status) -> Result<(), NoMemory>
    ensures { OnOk result (out.new ≡ out.old ++ status_line status.now) }
{
    put_text(out, b"worker ", status.name.as_slice())?;
    put_text(out, b" status read_only ", flag(status.read_only))?;
    out.extend(b"\n")
}

fn put_worker(out: &mut Bytes, config: &Config, named: Named) -> Result<(), NoMemory>
    ensures { OnOk result (out.new ≡ out.old ++ worker_lines config.now.lbs config.now.statuses named) }
{
    match named {
        Named::Balancer(place) => match config.lbs.get(place as usize) {
            Some(lb) => put_balancer(out, lb),
            None => Ok(()),
        },
        Named::Status(place) => match config.statuses.get(place as usize) {
            Some(status) => put_status(out, status),
            None => Ok(()),
        },
    }
}

fn put_workers(out: &mut Bytes, config: &Config) -> Result<(), NoMemory>
    ensures { OnOk result (out.new ≡ out.old ++ flat_map (listed_lines config.now.lbs config.now.statuses) config.now.listed) }
{
    for entry in config.listed.as_slice() {
        put_worker(out, config, entry.1)?;
    }
    Ok(())
}

fn put_ignored_line(out: &mut Bytes, line: u32, key: &[u8]) -> Result<(), NoMemory>
    ensures { OnOk result (out.new ≡ out.old ++ ignored_line (line, key.now)) }
{
    if behind_worker(key).is_none() {
        return Ok(());
    }
    put_number(out, b"ignored ", u64::from(line))?;
    put_text(out, b" ", key)?;
    out.extend(b"\n")
}

fn put_ignored_at(out: &mut Bytes, ignored: &IgnoredList, place: usize) -> Result<(), NoMemory>
    ensures { OnOk result (out.new ≡ out.old ++ ignored_at (slice_get ignored.now place)) }
{
    match ignored.get(place) {
        None => Ok(()),
        Some((line, key)) => put_ignored_line(out, line, key),
    }
}

fn put_ignored(out: &mut Bytes, ignored: &IgnoredList) -> Result<(), NoMemory>
    ensures { OnOk result (out.new ≡ out.old ++ flat_map ignored_line ignored.now) }
{
    for place in 0..ignored.len() {
        put_ignored_at(out, ignored, place)?;
    }
    Ok(())
}

/// Adds the lines of a configuration: the listed workers in their order, each balancer with its members, the seconds
/// between two maintenances, and the keys of workers that have no effect.
pub fn put_config(out: &mut Bytes, config: &Config) -> Result<(), NoMemory>
    ensures { OnOk result (out.new ≡ out.old ++ config_text config.now) }
{
    put_workers(out, config)?;
    put_number(out, b"maintain ", config.maintain)?;
    out.extend(b"\n")?;
    put_ignored(out, &config.ignored)
}
