//! The line of a request.
ghost use Rattle.std.specs.Prelude.{◌≡◌, ◌++◌, OnOk};
ghost use Rattle.std.specs.List.{flat_map};
ghost use Rattle.request_log.specs.Lines.{body_text, client_text, line_of, millis_text, part_text, worker_text};

use crate::escape::put_escaped;
use crate::format::{Format, Part};
use crate::moment::put_moment;
use crate::request_line::{put_first, put_method, put_path, put_query};
use crate::seen::Seen;
use jk_io::{Bytes, NoMemory, put_decimal};
use lb_model::Served;

fn put_body(out: &mut Bytes, body: u64) -> Result<(), NoMemory>
    ensures { OnOk result (out.new ≡ out.old ++ body_text body) }
{
    if body == 0 {
        return out.extend(b"-");
    }
    put_decimal(out, u128::from(body))
}

fn put_worker(out: &mut Bytes, worker: &Option<Bytes>) -> Result<(), NoMemory>
    ensures { OnOk result (out.new ≡ out.old ++ worker_text worker.now) }
{
    match worker {
        None => out.extend(b"-"),
        Some(name) => out.extend(name.as_slice()),
    }
}

fn put_client(out: &mut Bytes, addr: &[u8]) -> Result<(), NoMemory>
    ensures { OnOk result (out.new ≡ out.old ++ client_text addr.now) }
{
    if addr.is_empty() {
        return out.extend(b"-");
    }
    put_escaped(out, addr)
}

fn put_millis(out: &mut Bytes, took: Option<u64>) -> Result<(), NoMemory>
    ensures { OnOk result (out.new ≡ out.old ++ millis_text took) }
{
    match took {
        None => out.extend(b"-"),
        Some(millis) => put_decimal(out, u128::from(millis)),
    }
}

fn put_part(out: &mut Bytes, part: Part, row: &Served, seen: &Seen) -> Result<(), NoMemory>
    ensures { OnOk result (out.new ≡ out.old ++ part_text row.now seen.now part) }
{
    match part {
        Part::Text(byte) => out.push(byte),
        Part::Method => put_method(out, &row.asked),
        Part::Path => put_path(out, &row.asked),
        Part::Query => put_query(out, &row.asked),
        Part::Status => put_decimal(out, u128::from(row.status)),
        Part::Body => put_body(out, row.body),
        Part::Worker => put_worker(out, &row.worker),
        Part::First => put_first(out, &row.asked),
        Part::Client => put_client(out, seen.addr.as_slice()),
        Part::Moment => put_moment(out, seen.at),
        Part::Millis => put_millis(out, seen.took),
    }
}

fn put_parts(out: &mut Bytes, parts: &[Part], row: &Served, seen: &Seen) -> Result<(), NoMemory>
    ensures { OnOk result (out.new ≡ out.old ++ flat_map (part_text row.now seen.now) parts.now) }
{
    for part in parts {
        put_part(out, *part, row, seen)?;
    }
    Ok(())
}

/// Adds the line of a request, of which this was seen besides.
pub fn put_line(out: &mut Bytes, format: &Format, row: &Served, seen: &Seen) -> Result<(), NoMemory>
    ensures { OnOk result (out.new ≡ out.old ++ line_of format.now row.now seen.now) }
{
    put_parts(out, format.as_slice(), row, seen)?;
    out.extend(b"\n")
}
