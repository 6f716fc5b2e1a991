//! A Forward Request's payload, read from left to right.
ghost use Rattle.std.specs.Prelude.{◌≡◌, ◌≢◌, length, IfOk, IfErr};
ghost use Rattle.ajp_wire.specs.Reading.{GivesReading, TellsReading};
ghost use Rattle.ajp_request.specs.declared.forward.Forward.{Forward as AnyForward};
ghost use Rattle.ajp_wire.specs.FirstPlace.{IsRefused};
ghost use Rattle.ajp_request.specs.Spelling.{SpellsForward, IsSpelled};
ghost use Rattle.ajp_request.specs.Writing.{IsForward};
ghost use Rattle.ajp_request.specs.Reading.{boolean_at, method_at, line_at, ends_at, ended as no_more, behind_ends as ends_then, behind_headers as headers_then, forward_of};

use crate::attribute_reading::next_tail;
use crate::forward::Forward;
use crate::tables::{FORWARD_REQUEST, STORED, header_names, method_of};
use ajp_wire::{
    DecodeError, HeadPairs, NotRead, RefusalKind, next_byte, next_headers, next_int, next_text,
    refused,
};
use jk_io::Bytes;
use std::alloc::Global;

/// The request that a payload spells, all of it.
pub fn decode_forward(alloc: Global, payload: &[u8]) -> Result<Forward, DecodeError>
    ensures found { IfOk result (λ forward. SpellsForward forward payload.now) }
    ensures none { IfErr result (λ error. error ≢ DecodeError.NoMemory
        → (forward : AnyForward) → SpellsForward forward payload.now → ⊥) }

    // What was read can be written again.
    ensures written { IfOk result IsForward }

    // The first place that can't be read: what stands before it begins a request, and with what stands there none begins.
    ensures refused { IfErr result (λ error. IsRefused IsSpelled payload.now error) }

    // The kind of the refusal, read from left to right.
    ensures exact { TellsReading (length payload.now) result (forward_of payload.now) }
{
    match whole_forward(alloc, payload) {
        Ok(forward) => Ok(forward),
        Err(stop) => Err(stop.told(payload.len())),
    }
}

/// What a request begins with. The method is none where an attribute is to store it.
#[derive(Drop)]
struct RequestLine {
    method: Option<Bytes>,
    protocol: Bytes,
    uri: Bytes,
}

/// The two ends of the client's connection.
#[derive(Drop)]
struct Ends {
    remote_addr: Bytes,
    remote_host: Bytes,
    server: Bytes,
    port: u16,
    ssl: bool,
}

fn next_boolean(rest: &[u8]) -> Result<(bool, &[u8]), NotRead>
    ensures { GivesReading (λ x. (x.0, x.1.now)) result (boolean_at rest.now) }
{
    match rest {
        [0, rest @ ..] => Ok((false, rest)),
        [1, rest @ ..] => Ok((true, rest)),
        [_, ..] => Err(refused(RefusalKind::BadBoolean, rest)),
        [] => Err(refused(RefusalKind::Short, rest)),
    }
}

#[tactic(auto, unfolding(crate::specs::Reading::method_at))]
fn next_method(alloc: Global, rest: &[u8]) -> Result<(Option<Bytes>, &[u8]), NotRead>
    ensures { GivesReading (λ x. (x.0, x.1.now)) result (method_at rest.now) }
{
    let (code, after) = next_byte(rest)?;
    if code == STORED {
        return Ok((None, after));
    }
    match method_of(code) {
        Some(method) => Ok((Some(Bytes::from_slice(alloc, method)?), after)),
        None => Err(refused(RefusalKind::BadCode, rest)),
    }
}

#[tactic(auto, unfolding(crate::specs::Reading::line_at))]
fn next_line(alloc: Global, rest: &[u8]) -> Result<(RequestLine, &[u8]), NotRead>
    ensures { GivesReading (λ x. (x.0, x.1.now)) result (line_at rest.now) }
{
    let (first, after) = next_byte(rest)?;
    if first != FORWARD_REQUEST {
        return Err(refused(RefusalKind::BadCode, rest));
    }
    let (method, rest) = next_method(alloc, after)?;
    let (protocol, rest) = next_text(alloc, false, rest)?;
    let (uri, rest) = next_text(alloc, false, rest)?;
    let line = RequestLine {
        method,
        protocol,
        uri,
    };
    Ok((line, rest))
}

#[tactic(auto, unfolding(crate::specs::Reading::ends_at))]
fn next_ends(alloc: Global, rest: &[u8]) -> Result<(Ends, &[u8]), NotRead>
    ensures { GivesReading (λ x. (x.0, x.1.now)) result (ends_at rest.now) }
{
    let (remote_addr, rest) = next_text(alloc, false, rest)?;
    let (remote_host, rest) = next_text(alloc, true, rest)?;
    let (server, rest) = next_text(alloc, false, rest)?;
    let (port, rest) = next_int(rest)?;
    let (ssl, rest) = next_boolean(rest)?;
    let ends = Ends {
        remote_addr,
        remote_host,
        server,
        port,
        ssl,
    };
    Ok((ends, rest))
}

fn ended(rest: &[u8]) -> Result<(), NotRead>
    ensures { GivesReading (λ x. x) result (no_more rest.now) }
{
    match rest {
        [] => Ok(()),
        [_, ..] => Err(refused(RefusalKind::Extra, rest)),
    }
}

#[tactic(auto, unfolding(crate::specs::Reading::forward_of))]
fn whole_forward(alloc: Global, payload: &[u8]) -> Result<Forward, NotRead>
    ensures { GivesReading (λ x. x) result (forward_of payload.now) }
{
    let (line, rest) = next_line(alloc, payload)?;
    let (ends, rest) = next_ends(alloc, rest)?;
    behind_ends(alloc, line, ends, rest)
}

/// Reads the headers and what follows them.
fn behind_ends(
    alloc: Global,
    line: RequestLine,
    ends: Ends,
    rest: &[u8],
) -> Result<Forward, NotRead>
    ensures { GivesReading (λ x. x) result (ends_then line ends rest.now) }
{
    let (headers, rest) = next_headers(alloc, header_names(), false, rest)?;
    behind_headers(alloc, line, ends, headers, rest)
}

/// Reads the attributes and the end, and makes the request of its parts.
fn behind_headers(
    alloc: Global,
    line: RequestLine,
    ends: Ends,
    headers: HeadPairs,
    rest: &[u8],
) -> Result<Forward, NotRead>
    ensures { GivesReading (λ x. x) result (headers_then line ends headers rest.now) }
{
    let RequestLine {
        method,
        protocol,
        uri,
    } = line;
    let ((method, attributes), rest) = next_tail(alloc, method, rest)?;
    ended(rest)?;
    Ok(Forward {
        method,
        protocol,
        uri,
        remote_addr: ends.remote_addr,
        remote_host: ends.remote_host,
        server: ends.server,
        port: ends.port,
        ssl: ends.ssl,
        headers,
        attributes,
    })
}
