//! A Forward Request's packet. Its length is known before its memory is taken.
ghost use Rattle.std.specs.Prelude.{◌≡◌, false, ◌+◌, ◌<◌, ◌≤◌, ◌++◌, length, IfOk, OnOk, IfSome, IfNone};
ghost use Rattle.ajp_wire.specs.Packet.{packet};
ghost use Rattle.ajp_request.specs.Tables.{method_code as code_of_method};
ghost use Rattle.ajp_request.specs.Parts.{told_by};
ghost use Rattle.ajp_request.specs.Spelling.{SpellsForward};
ghost use Rattle.ajp_request.specs.Writing.{line_bytes, ends_bytes, tail_bytes, payload_of, as_read, IsForward, FieldsFit, TextsFit, FitsForward};
ghost use Rattle.ajp_wire.specs.declared.head_pairs.TheConstants.{MAX_HEADERS};
ghost use Rattle.ajp_wire.specs.declared.writing.TheConstants.{PAYLOAD_LIMIT};

use crate::attribute_writing::{
    attributes_len, method_len, put_attributes, put_with_method, text_len,
};
use crate::forward::{Forward, ForwardParts, parts_of};
use crate::tables::{END, FORWARD_REQUEST, STORED, header_names, method_code};
use ajp_wire::{
    EncodeError, HEAD_BYTES, MAX_PAYLOAD_BYTES, headers_len, put_head, put_headers, put_int,
    put_text,
};
use jk_io::{Bytes, NoMemory};
use std::alloc::Global;

/// A payload is counted as fewer bytes than this, even one that is too long.
const PAYLOAD_ROOM: usize = 20_000_000;

/// The fields before the headers are spelled in fewer bytes than this.
const FRONT_ROOM: usize = 400_000;

/// The packet of a request, which has at most `most` bytes.
pub fn encode_forward(alloc: Global, forward: &Forward, most: u32) -> Result<Bytes, EncodeError>
    requires { IsForward forward.now }
    ensures ok { IfOk result (λ bytes. bytes ≡ packet false (payload_of forward.now)) }
    ensures spelled { OnOk result (SpellsForward (as_read forward.now) (payload_of forward.now)) }
    ensures fits { OnOk result (FitsForward most forward.now) }
    ensures too_large { result ≡ Err EncodeError.TooLarge → FitsForward most forward.now → ⊥ }
{
    encode_parts(alloc, &parts_of(forward), most)
}

/// As `encode_forward`, but the request's parts lie where they are.
pub fn encode_parts(alloc: Global, parts: &ForwardParts, most: u32) -> Result<Bytes, EncodeError>
    requires { IsForward (told_by parts.now) }
    ensures ok { IfOk result (λ bytes. bytes ≡ packet false (payload_of (told_by parts.now))) }
    ensures spelled { OnOk result (SpellsForward (as_read (told_by parts.now)) (payload_of (told_by parts.now))) }
    ensures fits { OnOk result (FitsForward most (told_by parts.now)) }
    ensures too_large { result ≡ Err EncodeError.TooLarge → FitsForward most (told_by parts.now) → ⊥ }
{
    let code = method_code(parts.method);
    let Some(size) = payload_len(parts, code) else {
        return Err(EncodeError::TooLarge);
    };
    if size > MAX_PAYLOAD_BYTES {
        return Err(EncodeError::TooLarge);
    }
    if HEAD_BYTES + size > most as usize {
        return Err(EncodeError::TooLarge);
    }
    let mut out = Bytes::with_capacity(alloc, HEAD_BYTES + size)?;
    put_head(&mut out, false, size as u16)?;
    put_payload(&mut out, parts, code)?;
    Ok(out)
}

/// How many bytes the payload has, unless a field is longer than its length can say, or they are more than fit a payload.
fn payload_len(parts: &ForwardParts, code: Option<u8>) -> Option<usize>
    requires few { length parts.now.headers.now ≤ MAX_HEADERS }
    requires coded { code ≡ code_of_method parts.now.method.now }
    ensures value { IfSome result (λ len. len ≡ length (payload_of (told_by parts.now))) }
    ensures bound { IfSome result (λ len. len < PAYLOAD_ROOM) }
    ensures fits { IfSome result (λ _. FieldsFit (told_by parts.now)) }
    ensures none { IfNone result (FieldsFit (told_by parts.now) → length (payload_of (told_by parts.now)) < PAYLOAD_LIMIT → ⊥) }
{
    let front = front_len(parts)?;
    let headers = 2 + headers_len(parts.headers, header_names())?;
    let method = method_len(code, parts.method)?;
    let attributes = attributes_len(parts.attributes)?;
    Some(front + headers + method + attributes + 1)
}

/// How many bytes the fields before the headers have, unless a text is longer than its length can say.
fn front_len(parts: &ForwardParts) -> Option<usize>
    ensures value { IfSome result (λ len. len ≡ length (line_bytes (told_by parts.now) ++ ends_bytes (told_by parts.now))) }
    ensures bound { IfSome result (λ len. len < FRONT_ROOM) }
    ensures fits { IfSome result (λ _. TextsFit (told_by parts.now)) }
    ensures none { IfNone result (TextsFit (told_by parts.now) → ⊥) }
{
    let line = 2 + text_len(parts.protocol)? + text_len(parts.uri)?;
    let ends = text_len(parts.remote_addr)?
        + text_len(parts.remote_host)?
        + text_len(parts.server)?
        + 3;
    Some(line + ends)
}

fn put_line(out: &mut Bytes, parts: &ForwardParts, code: Option<u8>) -> Result<(), NoMemory>
    requires fits { FieldsFit (told_by parts.now) }
    requires coded { code ≡ code_of_method parts.now.method.now }
    ensures { OnOk result (out.new ≡ out.old ++ line_bytes (told_by parts.now)) }
{
    out.push(FORWARD_REQUEST)?;
    out.push(code.unwrap_or(STORED))?;
    put_text(out, parts.protocol)?;
    put_text(out, parts.uri)
}

fn put_ends(out: &mut Bytes, parts: &ForwardParts) -> Result<(), NoMemory>
    requires { FieldsFit (told_by parts.now) }
    ensures { OnOk result (out.new ≡ out.old ++ ends_bytes (told_by parts.now)) }
{
    put_text(out, parts.remote_addr)?;
    put_text(out, parts.remote_host)?;
    put_text(out, parts.server)?;
    put_int(out, parts.port)?;
    out.push(u8::from(parts.ssl))
}

#[tactic(auto, unfolding(crate::specs::Writing::payload_of))]
fn put_payload(out: &mut Bytes, parts: &ForwardParts, code: Option<u8>) -> Result<(), NoMemory>
    requires few { length parts.now.headers.now ≤ MAX_HEADERS }
    requires fits { FieldsFit (told_by parts.now) }
    requires coded { code ≡ code_of_method parts.now.method.now }
    ensures { OnOk result (out.new ≡ out.old ++ payload_of (told_by parts.now)) }
{
    put_line(out, parts, code)?;
    put_ends(out, parts)?;
    put_int(out, parts.headers.len() as u16)?;
    put_headers(out, parts.headers, header_names())?;
    put_tail(out, parts, code)
}

fn put_tail(out: &mut Bytes, parts: &ForwardParts, code: Option<u8>) -> Result<(), NoMemory>
    requires fits { FieldsFit (told_by parts.now) }
    requires coded { code ≡ code_of_method parts.now.method.now }
    ensures { OnOk result (out.new ≡ out.old ++ tail_bytes (told_by parts.now)) }
{
    match code {
        Some(_) => put_attributes(out, parts.attributes)?,
        None => put_with_method(out, parts.method, parts.attributes)?,
    }
    out.push(END)
}
