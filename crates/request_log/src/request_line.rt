//! The request in a log's line: method, path and query, and the request line whole.
ghost use Rattle.std.specs.Prelude.{◌≡◌, ◌++◌, OnOk};
ghost use Rattle.request_log.specs.Lines.{first_text, method_text, path_of, path_text, query_of, query_text, protocol_of};

use crate::escape::put_escaped;
use jk_io::{Bytes, NoMemory};
use lb_model::Asked;

/// The target from its first `?` on.
fn query_of(target: &[u8]) -> &[u8]
    ensures { result.now ≡ query_of target.now }
{
    let mut rest = target;
    while let [byte, others @ ..] = rest
        && *byte != b'?'
    {
        rest = others;
    }
    rest
}

/// The target up to its first `?`.
fn path_of(target: &[u8]) -> &[u8]
    ensures { result.now ≡ path_of target.now }
{
    &target[..target.len() - query_of(target).len()]
}

fn protocol_of(old: bool) -> &'static [u8]
    ensures { result.now ≡ protocol_of old }
{
    if old { b"HTTP/1.0" } else { b"HTTP/1.1" }
}

pub(crate) fn put_method(out: &mut Bytes, asked: &Asked) -> Result<(), NoMemory>
    ensures { OnOk result (out.new ≡ out.old ++ method_text asked.now) }
{
    match asked {
        Asked::Refused => out.extend(b"-"),
        Asked::Line { method, .. } => put_escaped(out, method.as_slice()),
    }
}

pub(crate) fn put_path(out: &mut Bytes, asked: &Asked) -> Result<(), NoMemory>
    ensures { OnOk result (out.new ≡ out.old ++ path_text asked.now) }
{
    match asked {
        Asked::Refused => out.extend(b"-"),
        Asked::Line { target, .. } => put_escaped(out, path_of(target.as_slice())),
    }
}

pub(crate) fn put_query(out: &mut Bytes, asked: &Asked) -> Result<(), NoMemory>
    ensures { OnOk result (out.new ≡ out.old ++ query_text asked.now) }
{
    match asked {
        Asked::Refused => Ok(()),
        Asked::Line { target, .. } => put_escaped(out, query_of(target.as_slice())),
    }
}

pub(crate) fn put_first(out: &mut Bytes, asked: &Asked) -> Result<(), NoMemory>
    ensures { OnOk result (out.new ≡ out.old ++ first_text asked.now) }
{
    match asked {
        Asked::Refused => out.extend(b"-"),
        Asked::Line {
            method,
            target,
            old,
        } => {
            put_escaped(out, method.as_slice())?;
            out.extend(b" ")?;
            put_escaped(out, target.as_slice())?;
            out.extend(b" ")?;
            out.extend(protocol_of(*old))
        }
    }
}
