//! The head of a container's reply, and which head may go to a client.
ghost use Rattle.std.specs.Prelude.{◌≡◌, ◌≤◌, IsTrue, ◌↔◌};
ghost use Rattle.std.specs.List.{list_all};
ghost use Rattle.http_header.specs.FieldName.{is_field_name};
ghost use Rattle.http_out.specs.Head.{is_text, is_field, IsJudgment};

use crate::content_length::{ContentLength, content_length};
use http::StatusCode;
use http_front::HeadLines;
use http_header::{MAX_HEADER_NAME_LEN, is_token};
use jk_io::{Bytes, NoMemory};
use thiserror::Error;

/// The head of a container's reply, as the client is to get it but for the lines that speak of the container's link.
#[derive(Drop)]
pub struct ReplyHead {
    /// The status code.
    pub status: u16,
    /// The reason phrase, which may be empty.
    pub message: Bytes,
    pub headers: HeadLines,
}

/// Why a reply can't go on.
#[derive(Clone, Copy, Debug, PartialEq, Eq, Error)]
pub enum OutError {
    /// The container's head may not go to a client.
    #[error("the reply's head is malformed")]
    BadReply,
    /// The chunks don't agree with the length that was announced.
    #[error("the body doesn't agree with its length")]
    Disagree,
    /// Writing to the client failed.
    #[error("the client is gone")]
    Fault,
    #[error("out of memory")]
    NoMemory,
}

impl From<NoMemory> for OutError {
    ghost use Rattle.http_out.specs.declared.reply_head.OutError.TheVariants as Out;

    ghost from_gives = { λ _ e. e ≡ Out.NoMemory };

    fn from(_error: NoMemory) -> OutError {
        OutError::NoMemory
    }
}

/// A final status: a code that isn't of the first hundred (RFC 9110, section 15).
fn is_final(status: u16) -> bool
    ensures { IsTrue result ↔ ((200 ≤ status) × (status ≤ 999)) }
{
    match StatusCode::from_u16(status) {
        Ok(_) => status >= 200,
        Err(_) => false,
    }
}

/// No control byte but tab, so that no line of the head ends early.
fn is_text(bytes: &[u8]) -> bool
    ensures { result ≡ is_text bytes.now }
{
    bytes
        .iter()
        .all(|b| *b == b'\t' || (b' ' <= *b && !(*b == 0x7f)))
}

/// A token, as `http_header` decides it.
fn is_name(name: &[u8]) -> bool
    ensures { result ≡ is_field_name name.now }
{
    is_token(name) && name.len() <= MAX_HEADER_NAME_LEN
}

fn is_field(line: &(Bytes, Bytes)) -> bool
    ensures { result ≡ is_field line.now }
{
    is_name(line.0.as_slice()) && is_text(line.1.as_slice())
}

fn are_fields(lines: &[(Bytes, Bytes)]) -> bool
    ensures { result ≡ list_all is_field lines.now }
{
    for line in lines {
        if !is_field(line) {
            return false;
        }
    }
    true
}

/// Whether the head may go to a client, and then what it says of the body's length.
pub fn judge(head: &ReplyHead) -> Result<ContentLength, OutError>
    ensures { IsJudgment head.now result }
{
    if !is_final(head.status) {
        return Err(OutError::BadReply);
    }
    if !is_text(head.message.as_slice()) {
        return Err(OutError::BadReply);
    }
    if !are_fields(head.headers.as_slice()) {
        return Err(OutError::BadReply);
    }
    match content_length(head.headers.as_slice()) {
        ContentLength::Unreadable => Err(OutError::BadReply),
        ContentLength::Absent => Ok(ContentLength::Absent),
        ContentLength::Announced(length) => Ok(ContentLength::Announced(length)),
    }
}
