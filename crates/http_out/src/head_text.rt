//! The bytes of a reply's head.
ghost use Rattle.std.specs.Prelude.{◌≡◌, ◌++◌, IfOk, OnOk};
ghost use Rattle.http_out.specs.Framing.{framing_of};
ghost use Rattle.http_out.specs.ReplyBytes.{date_line, framing_line, has_date, head_bytes, last_line, line_bytes, lines_bytes, passes, status_line};

use crate::content_length::is_content_length;
use crate::dates::put_date;
use crate::framing::{Framing, RequestKind};
use crate::reply_head::ReplyHead;
use jk_io::{Bytes, NoMemory, put_decimal};
use std::alloc::Global;

/// Room for a status line, the added lines and the empty line.
const FIXED_ROOM: usize = 120;

/// The head's bytes, in memory that is taken once.
#[tactic(auto, unfolding(crate::specs::ReplyBytes::head_bytes))]
pub fn head_text(
    alloc: Global,
    kind: RequestKind,
    head: &ReplyHead,
    framing: Framing,
) -> Result<Bytes, NoMemory>
    requires { framing ≡ framing_of kind head.now }
    ensures { IfOk result (λ text. text ≡ head_bytes kind head.now) }
{
    let mut text = Bytes::with_capacity(alloc, room_of(head))?;
    put_status(&mut text, head)?;
    put_lines(&mut text, head.status, head.headers.as_slice())?;
    put_moment(&mut text, kind, head)?;
    put_added(&mut text, kind, framing)?;
    text.extend(b"\r\n")?;
    Ok(text)
}

/// How many bytes the head has at most, where that is a number of the machine.
fn room_of(head: &ReplyHead) -> usize {
    let mut room = head.message.len().saturating_add(FIXED_ROOM);
    for (name, value) in head.headers.as_slice() {
        room = room
            .saturating_add(name.len())
            .saturating_add(value.len())
            .saturating_add(4);
    }
    room
}

fn put_status(text: &mut Bytes, head: &ReplyHead) -> Result<(), NoMemory>
    ensures { OnOk result (text.new ≡ text.old ++ status_line head.now) }
{
    text.extend(b"HTTP/1.1 ")?;
    put_decimal(text, u128::from(head.status))?;
    text.extend(b" ")?;
    text.extend(head.message.as_slice())?;
    text.extend(b"\r\n")
}

/// Whether a line of the container's goes to the client.
fn does_pass(status: u16, line: &(Bytes, Bytes)) -> bool
    ensures { result ≡ passes status line.now }
{
    let name = line.0.as_slice();
    !name.eq_ignore_ascii_case(b"connection")
        && (!name.eq_ignore_ascii_case(b"keep-alive")
            && (!name.eq_ignore_ascii_case(b"transfer-encoding")
                && !(status == 204 && is_content_length(line))))
}

fn put_line(text: &mut Bytes, line: &(Bytes, Bytes)) -> Result<(), NoMemory>
    ensures { OnOk result (text.new ≡ text.old ++ line_bytes line.now) }
{
    text.extend(line.0.as_slice())?;
    text.extend(b": ")?;
    text.extend(line.1.as_slice())?;
    text.extend(b"\r\n")
}

fn put_lines(text: &mut Bytes, status: u16, lines: &[(Bytes, Bytes)]) -> Result<(), NoMemory>
    ensures { OnOk result (text.new ≡ text.old ++ lines_bytes status lines.now) }
{
    for line in lines {
        if does_pass(status, line) {
            put_line(text, line)?;
        }
    }
    Ok(())
}

/// Whether a line of the container's tells the moment.
fn has_date(lines: &[(Bytes, Bytes)]) -> bool
    ensures { result ≡ has_date lines.now }
{
    lines
        .iter()
        .any(|line| line.0.as_slice().eq_ignore_ascii_case(b"date"))
}

/// Adds the line that tells the moment, where the container's lines tell none.
fn put_moment(text: &mut Bytes, kind: RequestKind, head: &ReplyHead) -> Result<(), NoMemory>
    ensures { OnOk result (text.new ≡ text.old ++ date_line kind head.now) }
{
    if has_date(head.headers.as_slice()) {
        return Ok(());
    }
    put_date(text, kind.date)
}

/// Adds the lines that are the connector's own.
fn put_added(text: &mut Bytes, kind: RequestKind, framing: Framing) -> Result<(), NoMemory>
    ensures { OnOk result (text.new ≡ (text.old ++ framing_line framing) ++ last_line kind) }
{
    put_framing(text, framing)?;
    if kind.last {
        text.extend(b"Connection: close\r\n")?;
    }
    Ok(())
}

fn put_framing(text: &mut Bytes, framing: Framing) -> Result<(), NoMemory>
    ensures { OnOk result (text.new ≡ text.old ++ framing_line framing) }
{
    match framing {
        Framing::Chunks => text.extend(b"Transfer-Encoding: chunked\r\n"),
        _ => Ok(()),
    }
}
