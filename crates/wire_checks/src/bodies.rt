//! Bodies, by their length and by chunks.

use check_rows::row::BlockRow;
use check_rows::telling::{put_bytes, put_count, put_faults, put_plain, put_shown, put_word};
use check_rows::texts::number;
use check_rows::ways::{Way, link_of};
use http_front::{BodyFault, BodyIn, BodyPlan, Inbox};
use jk_io::{MemLink, NoMemory};
use std::alloc::Global;

/// A limit that no data reach.
const NO_LIMIT: u64 = 1 << 40;

pub fn tell(
    alloc: Global,
    row: BlockRow<'_>,
    bytes: &[u8],
    way: Way,
    out: &mut String,
) -> Result<(), NoMemory> {
    tell_client(alloc, row, &mut link_of(alloc, bytes, way)?, out)
}

fn tell_client(
    alloc: Global,
    row: BlockRow<'_>,
    client: &mut MemLink,
    out: &mut String,
) -> Result<(), NoMemory> {
    let body = &mut BodyIn::new(plan_of(row.word("plan")), most_of(row.word("most")));
    do_acts(
        alloc,
        row.word("acts"),
        body,
        &mut Inbox::new(alloc)?,
        client,
        out,
    )
}

/// How a body is framed: `none`, `chunked`, or its length.
fn plan_of(word: &str) -> BodyPlan {
    match word {
        "none" => BodyPlan::None,
        "chunked" => BodyPlan::Chunked,
        length => BodyPlan::Exact(number(length)),
    }
}

fn most_of(word: &str) -> u64 {
    match word {
        "-" => NO_LIMIT,
        most => number(most),
    }
}

fn do_acts(
    alloc: Global,
    acts: &str,
    body: &mut BodyIn,
    inbox: &mut Inbox,
    client: &mut MemLink,
    out: &mut String,
) -> Result<(), NoMemory> {
    for act in acts.split(' ') {
        do_act(alloc, act, body, inbox, client, out)?;
    }
    put_faults(out, client.faults())
}

/// `skip` drops the rest, `taken` and `left` tell what was taken and what the link still has, `all:N` takes N bytes at a
/// time until the end, and N alone takes once.
fn do_act(
    alloc: Global,
    act: &str,
    body: &mut BodyIn,
    inbox: &mut Inbox,
    client: &mut MemLink,
    out: &mut String,
) -> Result<(), NoMemory> {
    match act {
        "skip" => match body.skip_rest(inbox, client) {
            Ok(()) => put_word(out, "ok"),
            Err(fault) => put_shown(out, &fault),
        },
        "taken" => put_count(out, "taken", body.taken()),
        "left" => put_left(alloc, client, out),
        _ => match act.split_once(':') {
            Some((_, n)) => take_all(alloc, number(n), body, inbox, client, out),
            None => take_once(alloc, number(act), body, inbox, client, out),
        },
    }
}

fn put_left(alloc: Global, client: &MemLink, out: &mut String) -> Result<(), NoMemory> {
    put_word(out, "left")?;
    put_bytes(out, client.to_come(alloc)?.as_slice())
}

fn take_once(
    alloc: Global,
    n: u64,
    body: &mut BodyIn,
    inbox: &mut Inbox,
    client: &mut MemLink,
    out: &mut String,
) -> Result<(), NoMemory> {
    match body.take(alloc, inbox, client, n.max(1) as usize) {
        Ok(piece) => put_bytes(out, piece.as_slice()),
        Err(fault) => put_shown(out, &fault),
    }
}

fn take_all(
    alloc: Global,
    n: u64,
    body: &mut BodyIn,
    inbox: &mut Inbox,
    client: &mut MemLink,
    out: &mut String,
) -> Result<(), NoMemory> {
    put_word(out, "\"")?;
    for _ in 0..1_000 {
        match take_some(alloc, n, body, inbox, client, out)? {
            None => {}
            Some(Ok(())) => return out.push_str("\" end").map_err(NoMemory::from),
            Some(Err(fault)) => {
                out.push('"')?;
                return put_shown(out, &fault);
            }
        }
    }
    Ok(())
}

/// Takes once, and answers where that was the end or a fault.
fn take_some(
    alloc: Global,
    n: u64,
    body: &mut BodyIn,
    inbox: &mut Inbox,
    client: &mut MemLink,
    out: &mut String,
) -> Result<Option<Result<(), BodyFault>>, NoMemory> {
    match body.take(alloc, inbox, client, n.max(1) as usize) {
        Ok(piece) if piece.is_empty() => Ok(Some(Ok(()))),
        Ok(piece) => {
            put_plain(out, piece.as_slice())?;
            Ok(None)
        }
        Err(fault) => Ok(Some(Err(fault))),
    }
}
