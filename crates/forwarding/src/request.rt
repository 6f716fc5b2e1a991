//! A request as it is handed to a member.
ghost use Rattle.std.specs.Prelude.{◌≡◌, ◌≤◌, length, map, IfOk, OnOk, Err};
ghost use Rattle.std.specs.Bool.{OnTrue};
ghost use Rattle.ajp_wire.specs.declared.errors.EncodeError.{EncodeError as AnyError};
ghost use Rattle.ajp_wire.specs.declared.head_pairs.TheConstants.{MAX_HEADERS};
ghost use Rattle.ajp_request.specs.Parts.{told_by};
ghost use Rattle.ajp_request.specs.Writing.{FitsForward, as_read, payload_of};
ghost use Rattle.ajp_request.specs.Spelling.{SpellsForward};
ghost use Rattle.forwarding.specs.Forwards.{GoOn, forward_for, forward_with, line_for, packet_for, protocol_of as protocol_text};

use crate::attributes::attributes_of;
use ajp_request::{Attribute, ForwardParts, encode_parts};
use ajp_wire::{EncodeError, HeadPairs};
use http_front::{Head, HeadLines};
use jk_io::{Bytes, NoMemory, Peer, trim};
use lb_model::MemberConfig;
use site_config::Endpoint;
use std::alloc::Global;

/// The packet of the Forward Request of a request from `peer`, for a member that is reached by `endpoint`; it has at most as
/// many bytes as the member takes. In a balancer that is `direct` no route is told. The packet is written from where the
/// request lies.
pub fn forward_packet(
    alloc: Global,
    head: &Head,
    peer: &Peer,
    direct: bool,
    member: &MemberConfig,
    endpoint: &Endpoint,
) -> Result<Bytes, EncodeError>
    ensures ok { IfOk result (λ bytes. bytes ≡ packet_for head.now peer.now.addr direct member.now endpoint.now) }
    ensures fits { OnOk result (FitsForward endpoint.now.packet (forward_for head.now peer.now.addr direct member.now endpoint.now)) }
    ensures spelled { let f = forward_for head.now peer.now.addr direct member.now endpoint.now in
        OnOk result (SpellsForward (as_read f) (payload_of f)) }
    ensures too_large { result ≡ Err EncodeError.TooLarge
        → FitsForward endpoint.now.packet (forward_for head.now peer.now.addr direct member.now endpoint.now) → ⊥ }
{
    let attributes = attributes_of(alloc, head, direct, member, endpoint)?;
    let trimmed = trimmed_lines(alloc, &head.headers)?;
    let headers = headers_in(&trimmed, &head.headers);
    let parts = parts_for(head, peer, headers, attributes.as_slice());
    encode_parts(alloc, &parts, endpoint.packet)
}

/// The parts of a Forward Request with these headers and attributes.
fn parts_for<'a>(
    head: &'a Head,
    peer: &'a Peer,
    headers: &'a [(Bytes, Bytes)],
    attributes: &'a [Attribute],
) -> ForwardParts<'a>
    ensures { told_by result ≡ forward_with head.now peer.now.addr headers.now attributes.now }
{
    ForwardParts {
        method: head.method.as_slice(),
        protocol: protocol_of(head.old),
        uri: head.path.as_slice(),
        remote_addr: peer.addr.as_slice(),
        remote_host: peer.addr.as_slice(),
        server: head.server.as_slice(),
        port: head.port,
        ssl: false,
        headers,
        attributes,
    }
}

fn protocol_of(old: bool) -> &'static [u8]
    ensures { result.now ≡ protocol_text old }
{
    if old { b"HTTP/1.0" } else { b"HTTP/1.1" }
}

/// The lines as they go on; None where they go on unchanged.
fn trimmed_lines(alloc: Global, lines: &HeadLines) -> Result<Option<HeadPairs>, NoMemory>
    ensures lines { IfOk result (λ trimmed. GoOn lines.now trimmed) }
    ensures few { length lines.now ≤ MAX_HEADERS }
{
    if are_trimmed(lines.as_slice()) {
        return Ok(None);
    }
    Ok(Some(headers_of(alloc, lines)?))
}

/// The headers that go on: those that were made, else the lines.
fn headers_in<'a>(trimmed: &'a Option<HeadPairs>, lines: &'a HeadLines) -> &'a [(Bytes, Bytes)]
    requires { GoOn lines.now trimmed.now }
    ensures { result.now ≡ map line_for lines.now }
{
    match trimmed {
        Some(pairs) => pairs.as_slice(),
        None => lines.as_slice(),
    }
}

/// Whether all lines go on as they are.
fn are_trimmed(lines: &[(Bytes, Bytes)]) -> bool
    ensures { OnTrue result (map line_for lines.now ≡ lines.now) }
{
    for line in lines {
        if !is_trimmed(line) {
            return false;
        }
    }
    true
}

fn is_trimmed(line: &(Bytes, Bytes)) -> bool
    ensures { OnTrue result (line_for line.now ≡ line.now) }
{
    trim(line.1.as_slice()) == line.1.as_slice()
}

fn headers_of(alloc: Global, lines: &HeadLines) -> Result<HeadPairs, NoMemory>
    ensures { IfOk result (λ pairs. pairs ≡ map line_for lines.now) }
{
    let mut pairs = Vec::with_capacity(alloc, lines.len())?;
    for line in lines.as_slice() {
        pairs.push(header_of(alloc, line)?)?;
    }
    Ok(HeadPairs::from_vec(pairs))
}

fn header_of(alloc: Global, line: &(Bytes, Bytes)) -> Result<(Bytes, Bytes), NoMemory>
    ensures { IfOk result (λ pair. pair ≡ line_for line.now) }
{
    let value = Bytes::from_slice(alloc, trim(line.1.as_slice()))?;
    Ok((line.0.copy()?, value))
}
