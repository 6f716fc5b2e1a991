//! Packets of AJPv1.3, read and sealed, and the row of their payloads.

use ajp_wire::{
    WireError, body_packet, code_of, next_headers, put_string, read_packet, seal, take_int,
    take_string,
};
use check_rows::row::BlockRow;
use check_rows::telling::{put_bytes, put_count, put_faults, put_shown};
use check_rows::ways::{Way, link_of};
use jk_io::{Bytes, MemLink, NoMemory};
use std::alloc::Global;

pub fn tell(
    alloc: Global,
    row: BlockRow<'_>,
    bytes: &[u8],
    way: Way,
    out: &mut String,
) -> Result<(), NoMemory> {
    match row.word("kind") {
        "seal" | "seal-size" => tell_sealed(alloc, row, bytes, out),
        "piece" | "piece-size" => tell_piece(alloc, row, bytes, out),
        "string-size" => tell_string(alloc, bytes, out),
        "places" => tell_places(row.amount(alloc, "at")? as usize, bytes, out),
        "headers" => tell_headers(alloc, bytes, out),
        "code" => put_shown(out, &code_of(&TABLE, bytes)),
        _ => tell_line(alloc, row, bytes, way, out),
    }
}

fn tell_line(
    alloc: Global,
    row: BlockRow<'_>,
    bytes: &[u8],
    way: Way,
    out: &mut String,
) -> Result<(), NoMemory> {
    tell_read(alloc, row, &mut link_of(alloc, bytes, way)?, out)
}

/// The table of names that the rows of headers and codes go by.
static TABLE: [&[u8]; 2] = [b"First", b"Second"];

/// Whether the packet itself is asked for, and not its length alone.
fn is_whole(row: BlockRow<'_>) -> bool {
    !row.word("kind").ends_with("-size")
}

fn sealed(alloc: Global, payload: &[u8], to_container: bool) -> Result<Bytes, WireError> {
    seal(alloc, Bytes::from_slice(alloc, payload)?, to_container)
}

fn tell_sealed(
    alloc: Global,
    row: BlockRow<'_>,
    bytes: &[u8],
    out: &mut String,
) -> Result<(), NoMemory> {
    let packet = sealed(alloc, bytes, row.word("to") == "container");
    put_packet(out, is_whole(row), &packet)
}

fn tell_piece(
    alloc: Global,
    row: BlockRow<'_>,
    bytes: &[u8],
    out: &mut String,
) -> Result<(), NoMemory> {
    put_packet(out, is_whole(row), &body_packet(alloc, bytes))
}

fn string(alloc: Global, text: &[u8]) -> Result<Bytes, WireError> {
    let mut out = Bytes::new(alloc);
    put_string(&mut out, text)?;
    Ok(out)
}

fn tell_string(alloc: Global, text: &[u8], out: &mut String) -> Result<(), NoMemory> {
    put_packet(out, false, &string(alloc, text))
}

fn tell_headers(alloc: Global, bytes: &[u8], out: &mut String) -> Result<(), NoMemory> {
    put_shown(out, &next_headers(alloc, &TABLE, false, bytes))
}

/// Adds a packet, or how many bytes it has, or why it isn't made.
fn put_packet(
    out: &mut String,
    whole: bool,
    packet: &Result<Bytes, WireError>,
) -> Result<(), NoMemory> {
    match packet {
        Ok(packet) if whole => put_bytes(out, packet.as_slice()),
        Ok(packet) => put_count(out, "length", packet.len() as u64),
        Err(error) => put_shown(out, error),
    }
}

fn tell_places(at: usize, bytes: &[u8], out: &mut String) -> Result<(), NoMemory> {
    put_shown(out, &take_int(bytes, at))?;
    put_shown(out, &take_string(bytes, at))
}

/// What a read of one packet answers, and how many bytes it leaves.
fn tell_read(
    alloc: Global,
    row: BlockRow<'_>,
    line: &mut MemLink,
    out: &mut String,
) -> Result<(), NoMemory> {
    let most = u32::try_from(row.amount(alloc, "most")?).unwrap_or(0);
    match read_packet(alloc, line, row.word("from") == "container", most) {
        Ok(payload) => put_bytes(out, payload.as_slice())?,
        Err(error) => put_shown(out, &error)?,
    }
    put_count(out, "left", line.to_come(alloc)?.len() as u64)?;
    put_faults(out, line.faults())
}
