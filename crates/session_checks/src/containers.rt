//! Talks of a connector with the container, as the container serves them.

use ajp_container::{AppConfig, serve_ajp};
use check_rows::row::BlockRow;
use check_rows::telling::{put_bytes, put_faults, put_shown};
use check_rows::texts::bytes_of;
use check_rows::ways::{Way, link_of};
use jk_io::{Bytes, MemLink, NoMemory};
use std::alloc::Global;

pub fn tell(
    alloc: Global,
    row: BlockRow<'_>,
    bytes: &[u8],
    way: Way,
    out: &mut String,
) -> Result<(), NoMemory> {
    serve(
        alloc,
        row.word("secret"),
        &mut link_of(alloc, bytes, way)?,
        out,
    )
}

fn serve(
    alloc: Global,
    secret: &str,
    link: &mut MemLink,
    out: &mut String,
) -> Result<(), NoMemory> {
    let end = serve_ajp(alloc, link, &container(alloc, secret)?);
    put_shown(out, &end)?;
    put_bytes(out, link.sent())?;
    put_faults(out, link.faults())
}

/// A container with the route n1, of the least packet, that asks for this secret, by `-` for none.
fn container(alloc: Global, secret: &str) -> Result<AppConfig, NoMemory> {
    let secret = match secret {
        "-" => None,
        secret => Some(bytes_of(alloc, secret)?),
    };
    Ok(AppConfig {
        route: Bytes::from_slice(alloc, b"n1")?,
        secret,
        packet: 8192,
    })
}
