//! How a request's body is framed (RFC 9112, section 6): each doubt is refused.
ghost use Rattle.std.specs.Prelude.{◌≡◌, ℕ, List, [], codes};
ghost use Rattle.http_front.specs.Fields.{named};
ghost use Rattle.http_front.specs.Framing.{plan_of, length_plan, length_of, coding_plan, is_long};
ghost use Rattle.http_front.specs.Lone.{IsLone};

use crate::answers::Form;
use crate::fields::{Lone, only_value, same_word};
use crate::head::BodyPlan;
use jk_io::{Bytes, parse_decimal};

/// The bytes of a body are fewer than these.
pub const MAX_BODY_BYTES: u64 = 1_099_511_627_776;

const MAX_LENGTH_DIGITS: usize = 19;

/// The plan of a body by the lines Content-Length and Transfer-Encoding.
pub fn plan_of(old: bool, lines: &[(Bytes, Bytes)]) -> Result<BodyPlan, Form>
    ensures { result ≡ plan_of old (named (codes "content-length") lines.now) (named (codes "transfer-encoding") lines.now) }
{
    let codings = only_value(lines, b"transfer-encoding");
    match only_value(lines, b"content-length") {
        Lone::Absent => codings_plan(old, codings),
        Lone::One(value) => match codings {
            Lone::Absent => length_plan(value),
            Lone::One(_) | Lone::More => Err(Form::TwoFramings),
        },
        Lone::More => match codings {
            Lone::Absent => Err(Form::BadLength),
            Lone::One(_) | Lone::More => Err(Form::TwoFramings),
        },
    }
}

/// The plan of a body without Content-Length.
fn codings_plan(old: bool, codings: Lone<'_>) -> Result<BodyPlan, Form>
    ensures { (values : List (List ℕ)) → IsLone values codings.entry → result ≡ plan_of old [] values }
{
    match codings {
        Lone::Absent => Ok(BodyPlan::None),
        Lone::One(coding) => coding_plan(old, coding),
        Lone::More => {
            if old {
                Err(Form::OldChunked)
            } else {
                Err(Form::BadCoding)
            }
        }
    }
}

/// The plan of one Transfer-Encoding line.
fn coding_plan(old: bool, coding: &[u8]) -> Result<BodyPlan, Form>
    ensures { result ≡ coding_plan old coding.now }
{
    if old {
        return Err(Form::OldChunked);
    }
    if !same_word(coding, b"chunked") {
        return Err(Form::BadCoding);
    }
    Ok(BodyPlan::Chunked)
}

/// The plan of one Content-Length line.
fn length_plan(value: &[u8]) -> Result<BodyPlan, Form>
    ensures { result ≡ length_plan (length_of value.now) }
{
    if value.len() > MAX_LENGTH_DIGITS {
        return Err(Form::BadLength);
    }
    match parse_decimal(value) {
        Some(0) => Ok(BodyPlan::None),
        Some(length) => Ok(BodyPlan::Exact(length)),
        None => Err(Form::BadLength),
    }
}

/// Whether a body would be too long.
pub fn is_long(plan: BodyPlan) -> bool
    ensures { result ≡ is_long plan }
{
    match plan {
        BodyPlan::Exact(length) => length >= MAX_BODY_BYTES,
        BodyPlan::None | BodyPlan::Chunked => false,
    }
}
