//! The answers that the connector makes itself.
ghost use Rattle.std.specs.Prelude.{◌≡◌, ◌++◌, ◌+◌, ◌≤◌, Some, length, IsSome, IfSome};
ghost use Rattle.http_out.specs.Dates.{date_field};
ghost use Rattle.http_out.specs.Own.{own_of, own_body, own_bytes, own_head, own_lines};

use arrayvec::ArrayVec;
use httpdate::HttpDate;
use std::marker::Model;

/// An answer of the connector's own.
#[derive(Clone, Copy, Debug, PartialEq, Eq)]
pub enum Own {
    BadRequest,
    Forbidden,
    NotFound,
    ContentTooLarge,
    FieldsTooLarge,
    InternalServerError,
    NotImplemented,
    BadGateway,
    ServiceUnavailable,
}

/// What of a request decides the bytes of an own answer.
#[derive(Clone, Copy)]
pub struct OwnKind {
    /// Its method is HEAD.
    pub head_only: bool,
    /// The moment that the answer tells; none where it tells none.
    pub date: Option<HttpDate>,
}

/// The bytes of an own answer; they take no memory.
#[derive(Drop)]
pub struct OwnAnswer {
    bytes: ArrayVec<u8, 192>,
}

impl Model for OwnAnswer {
    ghost use Rattle.std.specs.Prelude.{ℕ, List};

    ghost Value = { List ℕ };

    ghost view = { λ answer. answer.bytes.items };
}

impl OwnAnswer {
    pub fn as_slice(&self) -> &[u8]
        ensures { result.now ≡ self.now }
    {
        self.bytes.as_slice()
    }
}

impl Own {
    ghost use Rattle.std.specs.Prelude.{◌≡◌};
    ghost use Rattle.http_out.specs.Own.{own_bytes, own_with, status_of};

    /// The answer with this status; 500 where none has it.
    pub fn with_status(status: u16) -> Own
        ensures { result ≡ own_with status }
    {
        match status {
            400 => Own::BadRequest,
            403 => Own::Forbidden,
            404 => Own::NotFound,
            413 => Own::ContentTooLarge,
            431 => Own::FieldsTooLarge,
            501 => Own::NotImplemented,
            502 => Own::BadGateway,
            503 => Own::ServiceUnavailable,
            _ => Own::InternalServerError,
        }
    }

    pub fn status(self) -> u16
        ensures { result ≡ status_of self }
    {
        match self {
            Own::BadRequest => 400,
            Own::Forbidden => 403,
            Own::NotFound => 404,
            Own::ContentTooLarge => 413,
            Own::FieldsTooLarge => 431,
            Own::InternalServerError => 500,
            Own::NotImplemented => 501,
            Own::BadGateway => 502,
            Own::ServiceUnavailable => 503,
        }
    }

    /// The whole answer, which closes the connection; for a request with HEAD without its body. No memory is taken.
    pub fn answer(self, kind: OwnKind) -> OwnAnswer
        ensures { result ≡ own_bytes self kind }
    {
        let mut bytes = ArrayVec::new();
        put_head(&mut bytes, self, kind.date);
        if !kind.head_only {
            put(&mut bytes, body_of(self));
        }
        OwnAnswer { bytes }
    }
}

/// The whole answer with a status of 400, 403, 404, 413, 431, 500, 501, 502 or 503.
pub fn own_answer(status: u16, kind: OwnKind) -> OwnAnswer
    requires { IsSome (own_of status) }
    ensures { IfSome (own_of status) (λ own. result ≡ own_bytes own kind) }
{
    Own::with_status(status).answer(kind)
}

/// The body of that answer.
pub fn own_body(status: u16) -> &'static [u8]
    requires { IsSome (own_of status) }
    ensures { IfSome (own_of status) (λ own. result.now ≡ own_body own) }
{
    body_of(Own::with_status(status))
}

/// Adds bytes for which there is room.
fn put(answer: &mut ArrayVec<u8, 192>, bytes: &[u8])
    requires { length answer.old.items + length bytes.now ≤ 192 }
    ensures { answer.new.items ≡ answer.old.items ++ bytes.now }
{
    match answer.try_extend_from_slice(bytes) {
        Ok(()) => {}
        Err(_) => unreachable!(),
    }
}

/// Adds the line that tells the moment.
fn put_date(answer: &mut ArrayVec<u8, 192>, date: Option<HttpDate>)
    requires { length answer.old.items ≤ 100 }
    ensures added { answer.new.items ≡ answer.old.items ++ date_field date }
    ensures short { length answer.new.items ≤ length answer.old.items + 37 }
{
    if let Some(date) = date {
        put(answer, b"Date: ");
        put(answer, &date.to_bytes());
        put(answer, b"\r\n");
    }
}

/// Makes the answer's head.
fn put_head(answer: &mut ArrayVec<u8, 192>, own: Own, date: Option<HttpDate>)
    requires { length answer.old.items ≤ 0 }
    ensures added { answer.new.items ≡ answer.old.items ++ own_head own date }
    ensures short { length answer.new.items ≤ 156 }
{
    put(answer, lines_of(own));
    put_date(answer, date);
    put(answer, b"Connection: close\r\n\r\n");
}

/// The status line, and the lines that tell type and length.
fn lines_of(own: Own) -> &'static [u8]
    ensures value { result.now ≡ own_lines own }
    ensures short { length result.now ≤ 98 }
{
    match own {
        Own::BadRequest =>
            b"HTTP/1.1 400 Bad Request\r\nContent-Type: text/plain\r\nContent-Length: 16\r\n",
        Own::Forbidden =>
            b"HTTP/1.1 403 Forbidden\r\nContent-Type: text/plain\r\nContent-Length: 14\r\n",
        Own::NotFound =>
            b"HTTP/1.1 404 Not Found\r\nContent-Type: text/plain\r\nContent-Length: 14\r\n",
        Own::ContentTooLarge =>
            b"HTTP/1.1 413 Content Too Large\r\nContent-Type: text/plain\r\nContent-Length: 22\r\n",
        Own::FieldsTooLarge =>
            b"HTTP/1.1 431 Request Header Fields Too Large\r\nContent-Type: text/plain\r\nContent-Length: 36\r\n",
        Own::InternalServerError =>
            b"HTTP/1.1 500 Internal Server Error\r\nContent-Type: text/plain\r\nContent-Length: 26\r\n",
        Own::NotImplemented =>
            b"HTTP/1.1 501 Not Implemented\r\nContent-Type: text/plain\r\nContent-Length: 20\r\n",
        Own::BadGateway =>
            b"HTTP/1.1 502 Bad Gateway\r\nContent-Type: text/plain\r\nContent-Length: 16\r\n",
        Own::ServiceUnavailable =>
            b"HTTP/1.1 503 Service Unavailable\r\nContent-Type: text/plain\r\nContent-Length: 24\r\n",
    }
}

/// The status once more.
fn body_of(own: Own) -> &'static [u8]
    ensures value { result.now ≡ own_body own }
    ensures short { length result.now ≤ 36 }
{
    match own {
        Own::BadRequest => b"400 Bad Request\n",
        Own::Forbidden => b"403 Forbidden\n",
        Own::NotFound => b"404 Not Found\n",
        Own::ContentTooLarge => b"413 Content Too Large\n",
        Own::FieldsTooLarge => b"431 Request Header Fields Too Large\n",
        Own::InternalServerError => b"500 Internal Server Error\n",
        Own::NotImplemented => b"501 Not Implemented\n",
        Own::BadGateway => b"502 Bad Gateway\n",
        Own::ServiceUnavailable => b"503 Service Unavailable\n",
    }
}
