//! Forward Requests, read and written.
ghost use Rattle.std.specs.Prelude.{IfOk};
ghost use Rattle.ajp_request.specs.Writing.{IsForward};

use crate::messages::{headers_of, put_packet};
use ajp_request::{Forward, decode_forward, encode_forward};
use ajp_wire::{EncodeError, HEAD_BYTES, HeadPairs, MAX_HEADERS};
use check_rows::row::BlockRow;
use check_rows::telling::{put_shown, put_word};
use jk_io::{Bytes, NoMemory};
use std::alloc::Global;
use std::fmt::Write;

pub fn tell(
    alloc: Global,
    row: BlockRow<'_>,
    bytes: &[u8],
    out: &mut String,
) -> Result<(), NoMemory> {
    let most = u32::try_from(row.amount(alloc, "most")?).unwrap_or(u32::MAX);
    match row.word("kind") {
        "payload" => tell_payload(alloc, bytes, out),
        "rewrite" => tell_rewritten(alloc, bytes, most, out),
        _ => tell_sized(alloc, row, bytes, most, out),
    }
}

/// What is read in a payload.
pub fn tell_payload(alloc: Global, payload: &[u8], out: &mut String) -> Result<(), NoMemory> {
    put_shown(out, &decode_forward(alloc, payload))
}

fn tell_rewritten(
    alloc: Global,
    payload: &[u8],
    most: u32,
    out: &mut String,
) -> Result<(), NoMemory> {
    match decode_forward(alloc, payload) {
        Ok(forward) => tell_packet(alloc, &forward, most, out),
        Err(error) => put_shown(out, &error),
    }
}

fn tell_packet(
    alloc: Global,
    forward: &Forward,
    most: u32,
    out: &mut String,
) -> Result<(), NoMemory>
    requires { IsForward forward.now }
{
    put_packet(out, true, &encode_forward(alloc, forward, most))
}

/// The request of a payload, with this path and these headers, at most a hundred, in the place of its own.
fn sized(alloc: Global, row: BlockRow<'_>, payload: &[u8]) -> Result<Forward, NoMemory>
    ensures { IfOk result IsForward }
{
    let headers = headers_of(alloc, row)?;
    with_parts(alloc, row.bytes(alloc, "path")?, headers, payload)
}

fn with_parts(
    alloc: Global,
    uri: Bytes,
    headers: HeadPairs,
    payload: &[u8],
) -> Result<Forward, NoMemory>
    ensures { IfOk result IsForward }
{
    match decode_forward(alloc, payload) {
        Ok(forward) if headers.len() <= MAX_HEADERS => Ok(Forward {
            uri,
            headers,
            ..forward
        }),
        _ => Err(NoMemory),
    }
}

fn tell_sized(
    alloc: Global,
    row: BlockRow<'_>,
    payload: &[u8],
    most: u32,
    out: &mut String,
) -> Result<(), NoMemory> {
    tell_written(alloc, &sized(alloc, row, payload)?, most, out)
}

/// How many bytes the packet has, and whether it is read again as it was, or why it isn't written.
fn tell_written(
    alloc: Global,
    forward: &Forward,
    most: u32,
    out: &mut String,
) -> Result<(), NoMemory>
    requires { IsForward forward.now }
{
    tell_length(alloc, forward, &encode_forward(alloc, forward, most), out)
}

fn tell_length(
    alloc: Global,
    forward: &Forward,
    packet: &Result<Bytes, EncodeError>,
    out: &mut String,
) -> Result<(), NoMemory> {
    put_packet(out, false, packet)?;
    match packet {
        Ok(packet) if is_read_again(alloc, forward, packet)? => put_word(out, "read again"),
        _ => Ok(()),
    }
}

fn is_read_again(alloc: Global, forward: &Forward, packet: &Bytes) -> Result<bool, NoMemory> {
    let payload = packet.as_slice().get(HEAD_BYTES..).unwrap_or(&[]);
    let mut read = String::new(alloc);
    tell_payload(alloc, payload, &mut read)?;
    is_shown_so(alloc, forward, read.as_str())
}

fn is_shown_so(alloc: Global, forward: &Forward, shown: &str) -> Result<bool, NoMemory> {
    let mut own = String::new(alloc);
    put_own(forward, &mut own)?;
    Ok(own.as_str() == shown)
}

fn put_own(forward: &Forward, out: &mut String) -> Result<(), NoMemory> {
    write!(out, "Ok({forward:?})")?;
    Ok(())
}
