//! Links in memory, and numbers in decimal digits.

use check_rows::echo;
use check_rows::row::BlockRow;
use check_rows::telling::{part, put_bytes, put_faults, put_plain, put_shown, put_word};
use check_rows::texts::{bytes_of, number, numbers_of};
use jk_io::{
    Bytes, IoError, MemLink, NoMemory, NumberList, Sink, Source, parse_decimal, put_decimal, trim,
};
use std::alloc::Global;

pub fn tell(
    alloc: Global,
    row: BlockRow<'_>,
    bytes: &[u8],
    out: &mut String,
) -> Result<(), NoMemory> {
    match row.word("kind") {
        "reads" => tell_failing(alloc, bytes, row.word("fails"), out),
        "pieces" => tell_pieces(alloc, bytes, row.word("cuts"), out),
        "writes" => tell_silent(alloc, row, out),
        "echo" => tell_planned(alloc, bytes, row.word("calls"), out),
        "decimal" => put_shown(out, &parse_decimal(bytes)),
        "digits" => tell_digits(
            alloc,
            number(row.word("high")),
            number(row.word("low")),
            out,
        ),
        _ => put_bytes(out, trim(bytes)),
    }
}

fn tell_failing(
    alloc: Global,
    bytes: &[u8],
    places: &str,
    out: &mut String,
) -> Result<(), NoMemory> {
    tell_reads(&mut failing(alloc, bytes, places)?, out)
}

fn tell_pieces(
    alloc: Global,
    bytes: &[u8],
    places: &str,
    out: &mut String,
) -> Result<(), NoMemory> {
    tell_reads(&mut in_pieces(alloc, bytes, places)?, out)
}

fn tell_silent(alloc: Global, row: BlockRow<'_>, out: &mut String) -> Result<(), NoMemory> {
    tell_writes(
        alloc,
        &mut silent(alloc, row.word("fails"))?,
        row.word("pieces"),
        out,
    )
}

fn tell_planned(
    alloc: Global,
    bytes: &[u8],
    calls: &str,
    out: &mut String,
) -> Result<(), NoMemory> {
    tell_echo(alloc, &mut planned(alloc, bytes, calls)?, out)
}

fn failing(alloc: Global, bytes: &[u8], places: &str) -> Result<MemLink, NoMemory> {
    let reads = numbers_of(alloc, places)?;
    let incoming = Bytes::from_slice(alloc, bytes)?;
    MemLink::failing_at(alloc, incoming, reads, NumberList::new(alloc))
}

fn in_pieces(alloc: Global, bytes: &[u8], places: &str) -> Result<MemLink, NoMemory> {
    let cuts = numbers_of(alloc, places)?;
    Ok(MemLink::in_pieces(alloc, Bytes::from_slice(alloc, bytes)?, cuts))
}

fn silent(alloc: Global, places: &str) -> Result<MemLink, NoMemory> {
    let writes = numbers_of(alloc, places)?;
    MemLink::failing_at(alloc, Bytes::new(alloc), NumberList::new(alloc), writes)
}

/// A link of which these calls fail, numbered from 0 over reads and writes.
fn planned(alloc: Global, bytes: &[u8], calls: &str) -> Result<MemLink, NoMemory> {
    let calls = numbers_of(alloc, calls)?;
    Ok(MemLink::new(alloc, Bytes::from_slice(alloc, bytes)?, calls))
}

fn put_moved(out: &mut String, moved: Result<usize, IoError>) -> Result<(), NoMemory> {
    match moved {
        Ok(n) => put_shown(out, &n),
        Err(error) => put_shown(out, &error),
    }
}

/// The lengths of reads of at most eight bytes, to the end.
fn tell_reads(link: &mut MemLink, out: &mut String) -> Result<(), NoMemory> {
    let mut buf = [0u8; 8];
    for _ in 0..20 {
        let read = link.read(&mut buf);
        put_moved(out, read)?;
        if read == Ok(0) {
            break;
        }
    }
    put_faults(out, link.faults())
}

/// Reads to the end, and writes back what came.
fn tell_echo(alloc: Global, link: &mut MemLink, out: &mut String) -> Result<(), NoMemory> {
    match echo(alloc, link) {
        Ok(()) => put_word(out, "ok")?,
        Err(error) => put_shown(out, &error)?,
    }
    put_bytes(out, link.sent())?;
    put_faults(out, link.faults())
}

fn tell_write(link: &mut MemLink, piece: &[u8], out: &mut String) -> Result<(), NoMemory> {
    if piece.is_empty() {
        return put_word(out, "nothing");
    }
    put_moved(out, link.write(piece))
}

fn tell_piece(
    alloc: Global,
    link: &mut MemLink,
    piece: &str,
    out: &mut String,
) -> Result<(), NoMemory> {
    tell_write(link, bytes_of(alloc, piece)?.as_slice(), out)
}

/// What each write took, and all that was sent.
fn tell_writes(
    alloc: Global,
    link: &mut MemLink,
    pieces: &str,
    out: &mut String,
) -> Result<(), NoMemory> {
    for piece in pieces.split(" & ") {
        tell_piece(alloc, link, piece, out)?;
    }
    put_bytes(out, link.sent())?;
    put_faults(out, link.faults())
}

fn digits(alloc: Global, number: u128) -> Result<Bytes, NoMemory> {
    let mut text = Bytes::new(alloc);
    put_decimal(&mut text, number)?;
    Ok(text)
}

/// The digits of `high` times 2^64 and `low`.
fn tell_digits(alloc: Global, high: u64, low: u64, out: &mut String) -> Result<(), NoMemory> {
    let number = u128::from(high) << 64 | u128::from(low);
    part(out)?;
    put_plain(out, digits(alloc, number)?.as_slice())
}
