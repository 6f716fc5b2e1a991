//! The bytes of a head, parsed whole and judged.
ghost use Rattle.std.specs.Prelude.{◌≡◌, ◌≤◌, ◌+◌, List, ℕ, length, map, take, IfOk, IfSome, IfNone, All};
ghost use Rattle.httparse.specs.Grammar.{RequestHead};
ghost use Rattle.httparse.specs.Spans.{IsRequestWithin, IsRequestAt, IsRequestOf, IsHeaderWithin, header_bytes};
ghost use Rattle.http_front.specs.Makes.{MakesOf};
ghost use Rattle.http_front.specs.Request.{Reads};

use crate::answers::{Form, HeadError};
use crate::cut::count_header_lines;
use crate::head::Head;
use crate::head_lines::{HeadLines, MAX_HEAD_LINES};
use crate::judging::{make_head, refused};
use httparse::Status;
use httparse::spans::{EMPTY_HEADER_SPAN, HeaderSpan, RequestSpans, parse_request};
use jk_io::{Bytes, NoMemory};
use std::alloc::Global;

/// The head that these bytes are, or what they are refused for.
pub fn head_from(alloc: Global, front: &[u8]) -> Result<Head, HeadError>
    ensures { MakesOf front.now result }
{
    if count_header_lines(front) > MAX_HEAD_LINES {
        return Err(refused(Form::TooBig));
    }
    let mut spans = [EMPTY_HEADER_SPAN; MAX_HEAD_LINES];
    let parts = match whole_head(front, &mut spans) {
        Some(parts) => parts,
        None => return Err(refused(Form::BadHead)),
    };
    let headers = copy_lines(alloc, front, &spans[..parts.headers])?;
    make_head(
        alloc,
        parts.method.of(front),
        parts.path.of(front),
        parts.version == 0,
        headers,
    )
}

/// The parts of a head that the bytes are whole, with room for 100 fields.
fn whole_head(front: &[u8], headers: &mut [HeaderSpan]) -> Option<RequestSpans>
    requires { length headers.old ≡ MAX_HEAD_LINES }
    ensures within { IfSome result (IsRequestWithin front.now headers.new) }
    ensures found { IfSome result (λ parts. (parsed : RequestHead) × Reads front.now parsed × IsRequestAt front.now headers.new parts parsed) }
    ensures none { IfNone result ((parsed : RequestHead) → Reads front.now parsed → ⊥) }
{
    match parse_request(front, headers) {
        Ok(Status::Complete(parts)) if parts.len == front.len() => Some(parts),
        _ => None,
    }
}

/// The field lines, each with memory of its own.
fn copy_lines(alloc: Global, front: &[u8], spans: &[HeaderSpan]) -> Result<HeadLines, NoMemory>
    requires within { All (IsHeaderWithin (length front.now)) spans.now }
    requires few { length spans.now ≤ MAX_HEAD_LINES }
    ensures { IfOk result (λ lines. lines ≡ map (header_bytes front.now) spans.now) }
{
    let mut lines = Vec::with_capacity(alloc, spans.len())?;
    for span in spans {
        let name = Bytes::from_slice(alloc, span.name.of(front))?;
        let value = Bytes::from_slice(alloc, span.value.of(front))?;
        lines.push((name, value))?;
    }
    Ok(HeadLines::from_vec(lines))
}
