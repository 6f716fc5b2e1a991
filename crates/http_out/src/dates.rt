//! The field that tells the moment at which a message was made.
ghost use Rattle.std.specs.Prelude.{◌≡◌, ◌++◌, OnOk};
ghost use Rattle.http_out.specs.Dates.{date_field};

use httpdate::HttpDate;
use jk_io::{Bytes, NoMemory};

/// Adds the line that tells this moment; nothing where none is told.
pub fn put_date(text: &mut Bytes, date: Option<HttpDate>) -> Result<(), NoMemory>
    ensures { OnOk result (text.new ≡ text.old ++ date_field date) }
{
    let Some(date) = date else {
        return Ok(());
    };
    text.extend(b"Date: ")?;
    text.extend(&date.to_bytes())?;
    text.extend(b"\r\n")
}
