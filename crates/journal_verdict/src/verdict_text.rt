//! A verdict, as the line that says it.
ghost use Rattle.std.specs.Prelude.{◌≡◌, ◌∷◌, [], ◌++◌, OnOk, codes, decimal};
ghost use Rattle.journal_verdict.specs.Told.{bad_text, ruling_text, verdict_text};

use crate::ruling::{Ruling, Verdict};
use jk_io::{Bytes, NoMemory, put_decimal};
use journal_text::put_answer;

// Adds a word and a number after it, with a space before each.
fn put_number(out: &mut Bytes, word: &[u8], number: u64) -> Result<(), NoMemory>
    ensures { OnOk result (out.new ≡ out.old ++ 32 ∷ word.now ++ 32 ∷ decimal number) }
{
    out.push(b' ')?;
    out.extend(word)?;
    out.push(b' ')?;
    put_decimal(out, u128::from(number))
}

// Adds a line after a space.
fn put_kept_line(out: &mut Bytes, line: &[u8]) -> Result<(), NoMemory>
    ensures { OnOk result (out.new ≡ out.old ++ 32 ∷ line.now) }
{
    out.push(b' ')?;
    out.extend(line)
}

// What a line has or ought to have, with a space before it.
fn put_ruling(out: &mut Bytes, ruling: &Ruling) -> Result<(), NoMemory>
    ensures { OnOk result (out.new ≡ out.old ++ ruling_text ruling.now) }
{
    match ruling {
        Ruling::Answer(answer) => put_answer(out, answer),
        Ruling::Seq(number) => put_number(out, b"seq", *number),
        Ruling::Moment(at) => put_number(out, b"moment", *at),
        Ruling::Count(count) => put_number(out, b"count", *count),
        Ruling::Line(line) => put_kept_line(out, line.as_slice()),
        Ruling::Stray => out.extend(b" stray"),
        Ruling::NotDue => out.extend(b" not due"),
        Ruling::Refused(code) => put_number(out, b"refused", u64::from(*code)),
        Ruling::Full => out.extend(b" full"),
    }
}

/// Adds the line of a wrong journal, with its LF: `bad line L: kept K, ruled R`.
pub fn put_bad(out: &mut Bytes, line: u64, kept: &Ruling, ruled: &Ruling) -> Result<(), NoMemory>
    ensures { OnOk result (out.new ≡ out.old ++ bad_text line kept.now ruled.now) }
{
    out.extend(b"bad line ")?;
    put_decimal(out, u128::from(line))?;
    out.extend(b": kept")?;
    put_ruling(out, kept)?;
    out.extend(b", ruled")?;
    put_ruling(out, ruled)?;
    out.push(b'\n')
}

fn put_good(out: &mut Bytes, entries: u64) -> Result<(), NoMemory>
    ensures { OnOk result (out.new ≡ out.old ++ verdict_text (Verdict.Good entries)) }
{
    out.extend(b"good ")?;
    put_decimal(out, u128::from(entries))?;
    out.push(b'\n')
}

/// Adds the line of a verdict, with its LF: `good N`, or that of a wrong journal.
pub fn put_verdict(out: &mut Bytes, verdict: &Verdict) -> Result<(), NoMemory>
    ensures { OnOk result (out.new ≡ out.old ++ verdict_text verdict.now) }
{
    match verdict {
        Verdict::Good { entries } => put_good(out, *entries),
        Verdict::Bad { line, kept, ruled } => put_bad(out, u64::from(*line), kept, ruled),
    }
}
