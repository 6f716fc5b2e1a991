//! How the client learns where the body of a reply ends.
ghost use Rattle.std.specs.Prelude.{if◌then◌else◌, ◌≡◌, ◌++◌, ◌<◌, false, OnOk};
ghost use Rattle.std.specs.Fmt.{digit_glyph};
ghost use Rattle.http_out.specs.Framing.{framing_by, hex_digits, framed, closing_bytes};

use crate::content_length::ContentLength;
use httpdate::HttpDate;
use jk_io::{Bytes, NoMemory};

/// What of a request decides the bytes of its reply.
#[derive(Clone, Copy)]
pub struct RequestKind {
    /// A request of HTTP/1.0.
    pub old: bool,
    /// The method is HEAD.
    pub head_only: bool,
    /// No request follows it on the connection.
    pub last: bool,
    /// The moment that a reply tells whose lines tell none; none where it tells none.
    pub date: Option<HttpDate>,
}

/// Where the body ends (RFC 9112, section 6.3).
#[derive(Clone, Copy, PartialEq, Eq)]
pub enum Framing {
    /// There is none.
    NoBody,
    /// After the bytes that are still due of the length that was announced.
    Length(u64),
    /// With the chunk of size 0.
    Chunks,
    /// With the connection.
    Closing,
}

/// The framing of a reply with this status, whose head says this of its length.
pub fn framing_of(kind: RequestKind, status: u16, said: ContentLength) -> Framing
    ensures { result ≡ framing_by kind status said }
{
    if kind.head_only || (status == 204 || status == 304) {
        return Framing::NoBody;
    }
    match said {
        ContentLength::Announced(length) => Framing::Length(length),
        ContentLength::Absent | ContentLength::Unreadable => unbounded(kind.old),
    }
}

/// The framing of a body whose length nothing says.
fn unbounded(old: bool) -> Framing
    ensures { result ≡ (if old then Framing.Closing else Framing.Chunks) }
{
    if old {
        Framing::Closing
    } else {
        Framing::Chunks
    }
}

impl Framing {
    ghost use Rattle.std.specs.Prelude.{◌≡◌, ◌↔◌, IsTrue};
    ghost use Rattle.http_out.specs.Framing.{is_beyond, is_complete, is_passed, spent};

    pub fn is_chunked(self) -> bool
        ensures { IsTrue result ↔ (self ≡ Framing.Chunks) }
    {
        matches!(self, Framing::Chunks)
    }

    /// A client gets something for this chunk.
    pub fn passes(self, chunk: &[u8]) -> bool
        ensures { result ≡ is_passed self chunk.now }
    {
        match self {
            Framing::NoBody => false,
            _ => !chunk.is_empty(),
        }
    }

    /// A chunk of this many bytes goes beyond the length that was announced.
    pub fn is_beyond(self, bytes: usize) -> bool
        ensures { result ≡ is_beyond self bytes }
    {
        match self {
            Framing::Length(due) => due < bytes as u64,
            _ => false,
        }
    }

    /// Nothing of an announced length is left to come.
    pub fn is_complete(self) -> bool
        ensures { result ≡ is_complete self }
    {
        match self {
            Framing::Length(due) => due == 0,
            _ => true,
        }
    }

    /// The framing after a chunk of this many bytes.
    pub fn spent(self, bytes: usize) -> Framing
        ensures { result ≡ spent self bytes }
    {
        match self {
            Framing::Length(due) => Framing::Length(due.saturating_sub(bytes as u64)),
            Framing::NoBody => Framing::NoBody,
            Framing::Chunks => Framing::Chunks,
            Framing::Closing => Framing::Closing,
        }
    }
}

/// The hexadecimal digit of a number below 16, in lower case.
fn glyph(digit: u8) -> u8
    requires { digit < 16 }
    ensures { result ≡ digit_glyph false digit }
{
    if digit < 10 {
        b'0' + digit
    } else {
        b'a' + (digit - 10)
    }
}

/// Adds a size in hexadecimal, the last `places` digits at most.
fn put_hex(text: &mut Bytes, size: usize, places: u32) -> Result<(), NoMemory>
    ensures { OnOk result (text.new ≡ text.old ++ hex_digits places size) }
{
    if places == 0 {
        return Ok(());
    }
    let last = glyph((size % 16) as u8);
    if size / 16 == 0 {
        return text.push(last);
    }
    put_hex(text, size / 16, places - 1)?;
    text.push(last)
}

/// Adds what a client gets for a chunk.
pub fn put_framed(text: &mut Bytes, framing: Framing, chunk: &[u8]) -> Result<(), NoMemory>
    ensures { OnOk result (text.new ≡ text.old ++ framed framing chunk.now) }
{
    match framing {
        Framing::NoBody => Ok(()),
        Framing::Length(_) | Framing::Closing => text.extend(chunk),
        Framing::Chunks => put_chunk(text, chunk),
    }
}

/// Adds a chunk of a chunked body (RFC 9112, section 7.1); an empty one would end it, so it adds nothing.
fn put_chunk(text: &mut Bytes, chunk: &[u8]) -> Result<(), NoMemory>
    ensures { OnOk result (text.new ≡ text.old ++ framed Framing.Chunks chunk.now) }
{
    if chunk.is_empty() {
        return Ok(());
    }
    text.reserve(chunk.len())?;
    put_hex(text, chunk.len(), 16)?;
    text.extend(b"\r\n")?;
    text.extend(chunk)?;
    text.extend(b"\r\n")
}

/// Adds what follows the last chunk.
pub fn put_closing(text: &mut Bytes, framing: Framing) -> Result<(), NoMemory>
    ensures { OnOk result (text.new ≡ text.old ++ closing_bytes framing) }
{
    match framing {
        Framing::Chunks => text.extend(b"0\r\n\r\n"),
        _ => Ok(()),
    }
}
