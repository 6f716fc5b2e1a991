//! The judgement on a parsed head: its first refusal, or the head that it is.
ghost use Rattle.std.specs.Prelude.{◌≡◌, Ok, Err, IfOk, IfErr, MatchResult};
ghost use Rattle.http_front.specs.Judged.{judged_of, head_of};
ghost use Rattle.http_front.specs.Makes.{Makes};
ghost use Rattle.http_front.specs.Path.{query_of};
ghost use Rattle.http_front.specs.Refusal.{status_of};

use crate::answers::{Form, HeadError, PathError};
use crate::fields::{says_close, says_expect};
use crate::framing::{is_long, plan_of};
use crate::head::{BodyPlan, Head};
use crate::head_lines::HeadLines;
use crate::hosts::{Server, host_of};
use crate::path::{before, clean_path, find_byte};
use jk_io::Bytes;
use std::alloc::Global;

/// What the lines of a head ask for: a server, and how the body is framed.
#[derive(Clone, Copy)]
pub struct JudgedLines<'a> {
    server: Server<'a>,
    plan: BodyPlan,
}

/// The error of a refused head.
pub fn refused(form: Form) -> HeadError
    ensures { result ≡ HeadError.Refused (status_of form) form }
{
    HeadError::Refused {
        status: form.status(),
        form,
    }
}

/// Judges a head by its method and lines: Host, the framing, the method and the length.
fn judge<'a>(method: &[u8], old: bool, lines: &'a [(Bytes, Bytes)]) -> Result<JudgedLines<'a>, Form>
    ensures { MatchResult result (λ asked. judged_of method.now old lines.now ≡ Ok (asked.server.name.now, asked.server.port, asked.plan))
        (λ form. judged_of method.now old lines.now ≡ Err form) }
{
    let server = host_of(old, lines)?;
    let plan = plan_of(old, lines)?;
    if method == b"CONNECT".as_slice() {
        return Err(Form::Connect);
    }
    if is_long(plan) {
        return Err(Form::TooLong);
    }
    Ok(JudgedLines { server, plan })
}

/// What follows the target's first `?`.
fn query_of(alloc: Global, target: &[u8]) -> Result<Option<Bytes>, HeadError>
    ensures value { IfOk result (λ query. query ≡ query_of target.now) }
    ensures memory { IfErr result (λ e. e ≡ HeadError.NoMemory) }
{
    match find_byte(target, b'?') {
        Some(at) => Ok(Some(Bytes::from_slice(alloc, &target[at + 1..])?)),
        None => Ok(None),
    }
}

/// The texts that a head copies from its request.
#[derive(Drop)]
struct Texts {
    method: Bytes,
    target: Bytes,
    path: Bytes,
    query: Option<Bytes>,
    server: Bytes,
}

fn texts_of(
    alloc: Global,
    method: &[u8],
    target: &[u8],
    path: &[u8],
    server: &[u8],
) -> Result<Texts, HeadError>
    ensures line { IfOk result (λ t. (t.method ≡ method.now) × (t.target ≡ target.now)) }
    ensures parts { IfOk result (λ t. (t.path ≡ path.now) × (t.query ≡ query_of target.now)) }
    ensures server { IfOk result (λ t. t.server ≡ server.now) }
    ensures memory { IfErr result (λ e. e ≡ HeadError.NoMemory) }
{
    Ok(Texts {
        method: Bytes::from_slice(alloc, method)?,
        target: Bytes::from_slice(alloc, target)?,
        path: Bytes::from_slice(alloc, path)?,
        query: query_of(alloc, target)?,
        server: Bytes::from_slice(alloc, server)?,
    })
}

/// The head of these parts, or what it is refused for.
pub fn make_head(
    alloc: Global,
    method: &[u8],
    target: &[u8],
    old: bool,
    headers: HeadLines,
) -> Result<Head, HeadError>
    ensures { Makes (head_of method.now target.now old headers) result }
{
    let asked = match judge(method, old, headers.as_slice()) {
        Ok(asked) => asked,
        Err(form) => return Err(refused(form)),
    };
    let path = before(target, b'?');
    let clean = match clean_path(alloc, path) {
        Ok(clean) => clean,
        Err(PathError::BadPath) => return Err(refused(Form::BadPath)),
        Err(PathError::NoMemory) => return Err(HeadError::NoMemory),
    };
    let texts = texts_of(alloc, method, target, path, asked.server.name)?;
    let port = asked.server.port;
    let plan = asked.plan;
    let close = says_close(headers.as_slice());
    let expect = says_expect(headers.as_slice());
    Ok(Head {
        method: texts.method,
        target: texts.target,
        path: texts.path,
        query: texts.query,
        clean,
        old,
        headers,
        server: texts.server,
        port,
        plan,
        close,
        expect,
    })
}
