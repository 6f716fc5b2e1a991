//! Session ids and their member, the recovery rule, and the packet that a member gets.

use crate::replies::lines_of;
use ajp_reply::Stage;
use ajp_wire::EncodeError;
use check_rows::row::BlockRow;
use check_rows::telling::{part, put_bytes, put_count, put_shown, put_word};
use check_rows::texts::bytes_of;
use forwarding::{IdList, MethodKind, forward_packet, may_retry, routed, session_ids};
use http_front::{BodyPlan, Head, HeadLines};
use jk_io::{Bytes, ListOf, NoMemory, Peer};
use lb_model::{Activation, MemberConfig, MemberList};
use site_config::{Endpoint, MemberLimits};
use std::alloc::Global;
use std::fmt::Write;

pub fn tell(
    alloc: Global,
    row: BlockRow<'_>,
    bytes: &[u8],
    out: &mut String,
) -> Result<(), NoMemory> {
    match row.word("kind") {
        "ids" => tell_ids_in(alloc, row.word("path"), row.word("lines"), out),
        "retry" => tell_retry(
            u8::try_from(row.amount(alloc, "options")?).unwrap_or(0),
            out,
        ),
        _ => tell_packet(alloc, row, bytes, out),
    }
}

fn tell_ids_in(alloc: Global, path: &str, lines: &str, out: &mut String) -> Result<(), NoMemory> {
    tell_ids(alloc, &head_of(alloc, b"GET", path, "-", lines)?, out)
}

fn tell_ids(alloc: Global, head: &Head, out: &mut String) -> Result<(), NoMemory> {
    tell_routed(
        alloc,
        &session_ids(alloc, head, b"JSESSIONID", b";jsessionid")?,
        out,
    )
}

/// The ids, and the member of node1, node2 and its twin that they name.
fn tell_routed(alloc: Global, ids: &IdList, out: &mut String) -> Result<(), NoMemory> {
    for id in ids.as_slice() {
        put_bytes(out, id.as_slice())?;
    }
    match member_of(ids, &members(alloc)?) {
        Some(member) => put_count(out, "to", u64::from(member)),
        None => put_word(out, "to nobody"),
    }
}

fn member_of(ids: &IdList, members: &MemberList) -> Option<u32> {
    if members.len() > 64 {
        return None;
    }
    routed(ids, members)
}

fn members(alloc: Global) -> Result<MemberList, NoMemory> {
    let mut members = MemberList::new(alloc);
    for route in [b"node1".as_slice(), b"node2", b"node2"] {
        members.push(member(alloc, route)?)?;
    }
    Ok(members)
}

fn nobody(alloc: Global) -> MemberConfig {
    MemberConfig {
        name: Bytes::new(alloc),
        route: Bytes::new(alloc),
        factor: 1,
        distance: 0,
        activation: Activation::Active,
        redirect: None,
        pool: 64,
    }
}

fn member(alloc: Global, route: &[u8]) -> Result<MemberConfig, NoMemory> {
    let mut member = nobody(alloc);
    put_names(&mut member, route)?;
    Ok(member)
}

fn put_names(member: &mut MemberConfig, route: &[u8]) -> Result<(), NoMemory> {
    member.name.extend(route)?;
    member.route.extend(route)
}

/// A head of HTTP/1.1 for localhost, with this path as it is and clean.
fn head_of(
    alloc: Global,
    method: &[u8],
    path: &str,
    query: &str,
    lines: &str,
) -> Result<Head, NoMemory> {
    let mut head = head_with(alloc, lines_of(alloc, lines)?);
    put_first_line(alloc, &mut head, method, path, query)?;
    Ok(head)
}

fn put_first_line(
    alloc: Global,
    head: &mut Head,
    method: &[u8],
    path: &str,
    query: &str,
) -> Result<(), NoMemory> {
    head.method.extend(method)?;
    head.server.extend(b"localhost")?;
    put_path(head, bytes_of(alloc, path)?.as_slice())?;
    put_query(alloc, head, query)
}

fn head_with(alloc: Global, headers: HeadLines) -> Head {
    Head {
        method: Bytes::new(alloc),
        target: Bytes::new(alloc),
        path: Bytes::new(alloc),
        query: None,
        clean: Bytes::new(alloc),
        old: false,
        headers,
        server: Bytes::new(alloc),
        port: 80,
        plan: BodyPlan::None,
        close: false,
        expect: false,
    }
}

fn put_path(head: &mut Head, path: &[u8]) -> Result<(), NoMemory> {
    head.target.extend(path)?;
    head.path.extend(path)?;
    head.clean.extend(path)
}

fn put_query(alloc: Global, head: &mut Head, query: &str) -> Result<(), NoMemory> {
    if query != "-" {
        head.query = Some(bytes_of(alloc, query)?);
    }
    Ok(())
}

/// Bit `head + 2 get + 4 got + 8 headers + 16 passed + 32 beyond`: the request may be sent once more.
fn tell_retry(options: u8, out: &mut String) -> Result<(), NoMemory> {
    let mut row = 0u64;
    for case in 0..64u32 {
        if is_retried(options, case) {
            row |= 1 << case;
        }
    }
    part(out)?;
    write!(out, "{row:04x}")?;
    Ok(())
}

/// The methods of a case: the first bit is HEAD's, the second GET's.
fn methods_of(case: u32) -> &'static [MethodKind] {
    match case & 3 {
        0 => &[MethodKind::Other],
        1 => &[MethodKind::Head],
        2 => &[MethodKind::Get],
        _ => &[MethodKind::Head, MethodKind::Get],
    }
}

fn is_retried(options: u8, case: u32) -> bool {
    let bit = |place: u32| case & place != 0;
    let stage = Stage {
        got: bit(4),
        headers: bit(8),
        passed: bit(16),
        beyond: bit(32),
    };
    methods_of(case)
        .iter()
        .any(|method| may_retry(options, *method, stage))
}

/// The head of a row's request.
fn asked_head(alloc: Global, row: BlockRow<'_>) -> Result<Head, NoMemory> {
    let method = row.word("method").as_bytes();
    head_of(alloc, method, "/", row.word("query"), row.word("lines"))
}

/// The packet that the member of route r1 gets for a request from 127.0.0.1.
fn tell_packet(
    alloc: Global,
    row: BlockRow<'_>,
    secret: &[u8],
    out: &mut String,
) -> Result<(), NoMemory> {
    tell_packet_of(
        alloc,
        row.word("how") == "direct",
        &asked_head(alloc, row)?,
        secret,
        out,
    )
}

fn tell_packet_of(
    alloc: Global,
    direct: bool,
    head: &Head,
    secret: &[u8],
    out: &mut String,
) -> Result<(), NoMemory> {
    match packet_of(alloc, direct, head, secret) {
        Ok(packet) => put_bytes(out, packet.as_slice()),
        Err(error) => put_shown(out, &error),
    }
}

fn packet_of(
    alloc: Global,
    direct: bool,
    head: &Head,
    secret: &[u8],
) -> Result<Bytes, EncodeError> {
    packet_for(alloc, direct, head, &endpoint(alloc, secret)?)
}

fn packet_for(
    alloc: Global,
    direct: bool,
    head: &Head,
    endpoint: &Endpoint,
) -> Result<Bytes, EncodeError> {
    let peer = Peer {
        addr: Bytes::from_slice(alloc, b"127.0.0.1")?,
    };
    packet_from(alloc, direct, head, &peer, endpoint)
}

fn packet_from(
    alloc: Global,
    direct: bool,
    head: &Head,
    peer: &Peer,
    endpoint: &Endpoint,
) -> Result<Bytes, EncodeError> {
    forward_packet(alloc, head, peer, direct, &member(alloc, b"r1")?, endpoint)
}

/// How the member is reached, without a secret.
fn open_endpoint(alloc: Global) -> Endpoint {
    Endpoint {
        host: Bytes::new(alloc),
        port: 8009,
        retries: 2,
        packet: 8192,
        secret: None,
        recovery: 0,
        ping_new: false,
        ping_each: false,
        ping_idle: false,
        fail_on: ListOf::new(alloc),
        limits: MemberLimits::none(),
    }
}

/// How the member is reached, with a secret or, by `-`, without one.
fn endpoint(alloc: Global, secret: &[u8]) -> Result<Endpoint, NoMemory> {
    let mut endpoint = open_endpoint(alloc);
    put_secret(alloc, &mut endpoint, secret)?;
    Ok(endpoint)
}

fn put_secret(alloc: Global, endpoint: &mut Endpoint, secret: &[u8]) -> Result<(), NoMemory> {
    endpoint.host.extend(b"localhost")?;
    if secret != b"-".as_slice() {
        endpoint.secret = Some(Bytes::from_slice(alloc, secret)?);
    }
    Ok(())
}
