//! A moment, as logs show it.
ghost use Rattle.std.specs.Prelude.{◌≡◌, ◌++◌, OnOk};
ghost use Rattle.request_log.specs.Lines.{date_pieces, date_words, moment_text};

use httpdate::HttpDate;
use jk_io::{Bytes, NoMemory};

fn put_pieces(
    out: &mut Bytes,
    day: &[u8],
    month: &[u8],
    year: &[u8],
    time: &[u8],
) -> Result<(), NoMemory>
    ensures { OnOk result (out.new ≡ out.old ++ date_pieces day.now month.now year.now time.now) }
{
    out.extend(b"[")?;
    out.extend(day)?;
    out.extend(b"/")?;
    out.extend(month)?;
    out.extend(b"/")?;
    out.extend(year)?;
    out.extend(b":")?;
    out.extend(time)?;
    out.extend(b" +0000]")
}

/// Adds a date in brackets, made of pieces of the date of a header field, as `Sun, 29 Nov 2026 08:11:24 GMT`.
fn put_date(out: &mut Bytes, date: HttpDate) -> Result<(), NoMemory>
    ensures { OnOk result (out.new ≡ out.old ++ date_words date) }
{
    let text = date.to_bytes();
    put_pieces(out, &text[5..7], &text[8..11], &text[12..16], &text[17..25])
}

pub(crate) fn put_moment(out: &mut Bytes, at: Option<HttpDate>) -> Result<(), NoMemory>
    ensures { OnOk result (out.new ≡ out.old ++ moment_text at) }
{
    match at {
        None => out.extend(b"-"),
        Some(date) => put_date(out, date),
    }
}
