//! Why a status worker's request gets no page, and the answer that says so.
ghost use Rattle.std.specs.Prelude.{◌≡◌, ◌++◌, ◌+◌, ◌≤◌, length};
ghost use Rattle.http_out.specs.Dates.{date_field};
ghost use Rattle.status_worker.specs.Refusals.{code_of, refusal_body, refusal_bytes, refusal_head, refusal_lines};

use arrayvec::ArrayVec;
use http_out::OwnKind;
use httpdate::HttpDate;
use std::marker::Model;

/// Why a status worker's request gets no page.
#[derive(Clone, Copy, Debug, PartialEq, Eq)]
pub enum PageRefusal {
    /// The status worker's directives name users or addresses.
    Closed,
    /// The request is a change, and the status worker may do none.
    ReadOnly,
    /// The query means no command.
    BadQuery,
    /// A name is that of no balancer, or of none of its members.
    UnknownName,
    /// A value is out of its range.
    BadValue,
    /// The journal has no field that holds the values.
    TooWide,
    /// The journal is full.
    Full,
}

impl PageRefusal {
    ghost use Rattle.std.specs.Prelude.{◌≡◌};
    ghost use Rattle.status_worker.specs.Refusals.{code_of, refusal_body};

    /// The status of its answer.
    pub fn code(self) -> u16
        ensures { result ≡ code_of self }
    {
        match self {
            PageRefusal::Closed | PageRefusal::ReadOnly => 403,
            PageRefusal::BadQuery | PageRefusal::BadValue | PageRefusal::TooWide => 400,
            PageRefusal::UnknownName => 404,
            PageRefusal::Full => 500,
        }
    }

    /// The body of its answer.
    pub fn body(self) -> &'static [u8]
        ensures { result.now ≡ refusal_body self }
    {
        body_of(self)
    }
}

/// The bytes of a refusal's answer; they take no memory.
#[derive(Drop)]
pub struct RefusalAnswer {
    bytes: ArrayVec<u8, 256>,
}

impl Model for RefusalAnswer {
    ghost use Rattle.std.specs.Prelude.{ℕ, List};

    ghost Value = { List ℕ };

    ghost view = { λ answer. answer.bytes.items };
}

impl RefusalAnswer {
    pub fn as_slice(&self) -> &[u8]
        ensures { result.now ≡ self.now }
    {
        self.bytes.as_slice()
    }
}

/// The whole answer to a refused request, which closes the connection; for one with HEAD without its body. No memory is taken.
pub fn refusal_answer(refusal: PageRefusal, kind: OwnKind) -> RefusalAnswer
    ensures { result ≡ refusal_bytes refusal kind }
{
    let mut bytes = ArrayVec::new();
    put_head(&mut bytes, refusal, kind.date);
    if !kind.head_only {
        put(&mut bytes, body_of(refusal));
    }
    RefusalAnswer { bytes }
}

/// Adds bytes for which there is room.
fn put(answer: &mut ArrayVec<u8, 256>, bytes: &[u8])
    requires { length answer.old.items + length bytes.now ≤ 256 }
    ensures { answer.new.items ≡ answer.old.items ++ bytes.now }
{
    match answer.try_extend_from_slice(bytes) {
        Ok(()) => {}
        Err(_) => unreachable!(),
    }
}

/// Adds the line that tells the moment.
fn put_moment(answer: &mut ArrayVec<u8, 256>, date: Option<HttpDate>)
    requires { length answer.old.items ≤ 90 }
    ensures added { answer.new.items ≡ answer.old.items ++ date_field date }
    ensures short { length answer.new.items ≤ length answer.old.items + 37 }
{
    if let Some(date) = date {
        put(answer, b"Date: ");
        put(answer, &date.to_bytes());
        put(answer, b"\r\n");
    }
}

/// Makes the answer's head.
fn put_head(answer: &mut ArrayVec<u8, 256>, refusal: PageRefusal, date: Option<HttpDate>)
    requires { length answer.old.items ≤ 0 }
    ensures added { answer.new.items ≡ answer.old.items ++ refusal_head refusal date }
    ensures short { length answer.new.items ≤ 148 }
{
    put(answer, lines_of(refusal));
    put_moment(answer, date);
    put(answer, b"Connection: close\r\n\r\n");
}

/// The status line, and the lines that tell type and length.
fn lines_of(refusal: PageRefusal) -> &'static [u8]
    ensures value { result.now ≡ refusal_lines refusal }
    ensures short { length result.now ≤ 90 }
{
    match refusal {
        PageRefusal::Closed =>
            b"HTTP/1.1 403 Forbidden\r\nContent-Type: text/plain\r\nContent-Length: 86\r\n",
        PageRefusal::ReadOnly =>
            b"HTTP/1.1 403 Forbidden\r\nContent-Type: text/plain\r\nContent-Length: 46\r\n",
        PageRefusal::BadQuery =>
            b"HTTP/1.1 400 Bad Request\r\nContent-Type: text/plain\r\nContent-Length: 43\r\n",
        PageRefusal::UnknownName =>
            b"HTTP/1.1 404 Not Found\r\nContent-Type: text/plain\r\nContent-Length: 50\r\n",
        PageRefusal::BadValue =>
            b"HTTP/1.1 400 Bad Request\r\nContent-Type: text/plain\r\nContent-Length: 46\r\n",
        PageRefusal::TooWide =>
            b"HTTP/1.1 400 Bad Request\r\nContent-Type: text/plain\r\nContent-Length: 63\r\n",
        PageRefusal::Full =>
            b"HTTP/1.1 500 Internal Server Error\r\nContent-Type: text/plain\r\nContent-Length: 46\r\n",
    }
}

/// The status once more, and the words.
fn body_of(refusal: PageRefusal) -> &'static [u8]
    ensures value { result.now ≡ refusal_body refusal }
    ensures short { length result.now ≤ 100 }
{
    match refusal {
        PageRefusal::Closed =>
            b"403 Forbidden\nthis status worker is closed, since users or addresses are named for it\n",
        PageRefusal::ReadOnly => b"403 Forbidden\nthis status worker is read only\n",
        PageRefusal::BadQuery => b"400 Bad Request\nthe query means no command\n",
        PageRefusal::UnknownName => b"404 Not Found\nno balancer or member has this name\n",
        PageRefusal::BadValue => b"400 Bad Request\nthe value is out of its range\n",
        PageRefusal::TooWide =>
            b"400 Bad Request\nthe values together are too wide for a journal\n",
        PageRefusal::Full => b"500 Internal Server Error\nthe journal is full\n",
    }
}
